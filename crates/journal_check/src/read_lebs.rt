// What was read of a log so far.

use image_check::WrongValue;
use leb_scan::Tail;
use media_sys::RefNode;

/// The LEBs whose texts were read, in order, and their references; the first reference that names no place of a main LEB;
/// the first LEB that begins with no commit start behind a torn tail; and the last LEB that was read,
/// its tail, and whether it is a commit start alone behind another LEB.
#[derive(Debug, Drop)]
pub(crate) struct ReadLebs {
    pub lnums: Vec<u32>,
    pub references: Vec<RefNode>,
    pub misnamed: Option<WrongValue>,
    pub torn: Option<WrongValue>,
    pub last: u32,
    pub tail: Tail,
    pub alone: bool,
}
