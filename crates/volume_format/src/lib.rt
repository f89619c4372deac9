//! `format`: makes an empty volume on a disk, and says so in a line.
//!
//! The contract to read first is that of [`format`]: for each [`FormatEnd`] it says why it came, what was put and what the disk
//! holds then (`specs/Formatting.antt`). [`NewVolume`] has the numbers of a volume that is to be made.
#![tactic(auto)]

mod formatting;
mod lines;
mod new_volume;
mod putting;

pub use formatting::{FormatEnd, format};
pub use lines::{not_volume_line, small_line};
pub use new_volume::NewVolume;
pub use putting::put_line;
