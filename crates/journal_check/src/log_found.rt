// What a log says that meets its rule.

use media_sys::RefNode;

/// The references of the log in the order in which they are read.
#[derive(Debug, Drop)]
pub struct LogFound {
    pub references: Vec<RefNode>,
}
