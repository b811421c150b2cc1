//! What modules of a script are converted to.

use wast_tree::Span;

/// The file of a module.
#[derive(Drop)]
pub struct ModuleFile {
    /// Its name, without a folder.
    pub name: String,
    /// The bytes of the module, or its text.
    pub bytes: Vec<u8>,
    /// Whether it is a text.
    pub is_text: bool,
}

/// What a module of a script is converted to.
#[derive(Drop)]
pub enum ConvertedModule {
    /// A file.
    File(ModuleFile),
    /// Nothing, because the module has an unsupported construct: the message, and its position in the script.
    Skipped(String, Span),
}
