//! The image of a command: its bytes are decoded, and its code is told.
ghost use Rattle.std.specs.Prelude.{List, ℕ};
ghost use Rattle.fac_lines.specs.Channels.{IsUnread};
ghost use Rattle.fac_tool.specs.Ends.{EndsAs, idle};
ghost use Rattle.fac_tool.specs.Executed.{DoesOnBytes, listed, listed_answer};
ghost use Rattle.fac_tool.specs.SeenObjects.{input_seen, output_seen, InputSeen};
ghost use Rattle.fac_tool.specs.inner.ImageSteps.{MakesImage};
ghost use Rattle.fac_tool.specs.inner.StepEnds.{StatusCounts};

use crate::ended::{bare, reported};
use crate::{Ended, Report};
use fac_bytes::{DecodeFault, decode, listing};
use fac_code::Image;
use fac_io::{Sink, Source};
use fac_lines::Channels;
use fac_notes::status::{NO_MEMORY, SUCCESS, WRITE_FAULT};
use std::alloc::Global;

/// The image of bytes.
pub fn image_of_bytes(alloc: Global, bytes: &[u8]) -> Result<Image, Ended>
    ensures { MakesImage bytes.now result }
{
    match decode(alloc, bytes) {
        Ok(image) => Ok(image),
        Err(DecodeFault::Memory) => Err(bare(NO_MEMORY, 0)),
        Err(DecodeFault::BadImage { at }) => Err(reported(0, Report::Image { at: at as u64 })),
    }
}

// Writes the listing of an image, in one write.
fn write_listing<S: Source, K: Sink>(
    alloc: Global,
    image: &Image,
    channels: &mut Channels<S, K>,
) -> Ended
    ensures ends { (input : List ℕ) → (seen : InputSeen) → EndsAs (listed_answer image.now input) idle (output_seen channels.old channels.new) seen input result }
    ensures unread { IsUnread channels.old channels.new }
    ensures counts { StatusCounts channels.old channels.new result.status }
{
    match listing(alloc, image) {
        Err(_) => bare(NO_MEMORY, 0),
        Ok(text) => match channels.write(text.as_bytes()) {
            Ok(()) => bare(SUCCESS, 0),
            Err(_) => bare(WRITE_FAULT, 0),
        },
    }
}

/// Writes the listing of the image of bytes, in one write.
pub fn list_image<S: Source, K: Sink>(
    alloc: Global,
    bytes: &[u8],
    channels: &mut Channels<S, K>,
) -> Ended
    ensures ends { DoesOnBytes listed bytes.now (input_seen channels.old channels.new) (output_seen channels.old channels.new) result }
    ensures counts { StatusCounts channels.old channels.new result.status }
{
    match image_of_bytes(alloc, bytes) {
        Ok(image) => write_listing(alloc, &image, channels),
        Err(ended) => ended,
    }
}
