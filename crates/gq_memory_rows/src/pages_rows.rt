// Frames on their happy paths, and what no contract can say: that the host gives memory where it has some.
ghost use Rattle.std.specs.Prelude.{◌≡◌, length};
ghost use Rattle.gq_pages.specs.Frame_map.{IsTaken, bytes_of};

use crate::used::used;
use gq_pages::{FrameNo, NoFrame, Pages};

// What a caller knows of each frame that is taken: it has 4096 bytes.
fn is_whole(pages: &Pages, frame: FrameNo)
    requires { IsTaken pages.now frame.0 }
    ensures { length (bytes_of pages.now frame.0) ≡ 4096 }
{
    pages.laws();
}

// How many frames are free, whether two that are taken are one, how many are free then, and what a third one is answered.
fn taken(pages: &mut Pages) -> Result<(u32, bool, u32, Option<NoFrame>), NoFrame> {
    let free = pages.free_count();
    let first = pages.take()?;
    let second = pages.take()?;
    let is_one = first == second;
    Ok((free, is_one, pages.free_count(), pages.take().err()))
}

// The last byte of a frame once it is written, and how many frames are free once that is given back. Its ends once it is taken again, and a byte of another
// frame that was written, too. No frame where another one is taken.
fn taken_again(pages: &mut Pages) -> Result<(u8, u32, [u8; 3]), NoFrame> {
    let first = pages.take()?;
    let second = pages.take()?;
    pages.set_byte(second, 9, 7);
    pages.set_byte(first, 0, 1);
    pages.set_byte(first, 4095, 5);
    let last = pages.byte(first, 4095);
    pages.give(first);
    let free = pages.free_count();
    let again = pages.take()?;
    if again != first {
        return Err(NoFrame);
    }
    let bytes = [
        pages.byte(again, 0),
        pages.byte(again, 4095),
        pages.byte(second, 9),
    ];
    Ok((last, free, bytes))
}

// The ends of a word once it is written, the word before it, and the word once the frame is cleared.
fn written(pages: &mut Pages) -> Result<([u8; 2], u32, u32), NoFrame> {
    let frame = pages.take()?;
    is_whole(pages, frame);
    pages.set_word(frame, 4092, 0x04030201);
    let bytes = [pages.byte(frame, 4092), pages.byte(frame, 4095)];
    let before = pages.word(frame, 4091);
    pages.zero(frame);
    Ok((bytes, before, pages.word(frame, 4092)))
}

// How many frames there are, and how many are free once three are taken and given back, the second at last. Whether the three that are taken then are those,
// the one that was given back last before the others. How many are free at last.
fn taken_in_turn(pages: &mut Pages) -> Result<(u32, u32, bool, u32), NoFrame> {
    let frames = pages.frame_count();
    let first = pages.take()?;
    let second = pages.take()?;
    let third = pages.take()?;
    pages.give(first);
    pages.give(third);
    pages.give(second);
    let free = pages.free_count();
    let again = [pages.take(), pages.take(), pages.take()];
    let is_in_turn = again == [Ok(second), Ok(third), Ok(first)];
    Ok((frames, free, is_in_turn, pages.free_count()))
}

// There are two frames, and no third one.
#[test]
fn has_two_frames(rt: HostRuntime) {
    assert_eq!(rt;
        used(Pages::new(rt.alloc(), 2), taken),
        Ok(Ok((2, false, 0, Some(NoFrame))))
    );
}

// A frame that was given back is clear once it is taken again. The lowest byte of a word is its first. The links of the chain are in the frames: those that are
// given back last are taken first.
#[test]
fn keeps_frames(rt: HostRuntime) {
    let alloc = rt.alloc();
    assert_eq!(rt;
        (
            used(Pages::new(alloc, 2), taken_again),
            used(Pages::new(alloc, 1), written),
            used(Pages::new(alloc, 16384), taken_in_turn)
        ),
        (
            Ok(Ok((5, 1, [0, 0, 7]))),
            Ok(Ok(([1, 4], 0x03020100, 0))),
            Ok(Ok((16384, 16384, true, 16381)))
        )
    );
}
