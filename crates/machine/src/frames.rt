//! The frames of a process, in the list at its base.
ghost use Rattle.std.specs.Prelude.{◌≡◌, ◌≤◌, [], length, slice_index_or, slice_set};
ghost use Rattle.store.specs.Held.{model, bounds};
ghost use Rattle.words.specs.Pushed.{Pushed};
ghost use Rattle.machine.specs.Frames.{words_of, Decodes, framed, top_frame, settled};

use crate::process::Process;
use store::{Refusal, Store};
use words::extend;

// The numbers stand in lent words; the two conversions alone know them.

// Tags of frames.
const LIST: u32 = 1;

const HANDLES: u32 = 2;

const AND_OR: u32 = 3;

const NOT: u32 = 4;

const IF: u32 = 5;

const CONDITION: u32 = 6;

const BODY: u32 = 7;

// The words of a frame.
const SIZE: usize = 3;

/// What stands on the stack of a process: an address, or the two handles that it had before a command.
#[derive(Clone, Copy)]
pub enum Frame {
    List(u32),
    Handles { stdin: u32, stdout: u32 },
    AndOr(u32),
    Not,
    If(u32),
    Condition(u32),
    Body(u32),
}

/// A word that is no tag of a frame.
/// As `code::UnknownTag`, of other tags.
#[derive(Clone, Copy, Debug, PartialEq, Eq)]
pub struct UnknownTag(pub u32);

impl From<Frame> for [u32; 3] {
    ghost from_gives = { λ frame words. words ≡ words_of frame };

    fn from(frame: Frame) -> [u32; 3] {
        match frame {
            Frame::List(at) => [at, 0, LIST],
            Frame::Handles { stdin, stdout } => [stdin, stdout, HANDLES],
            Frame::AndOr(at) => [at, 0, AND_OR],
            Frame::Not => [0, 0, NOT],
            Frame::If(at) => [at, 0, IF],
            Frame::Condition(at) => [at, 0, CONDITION],
            Frame::Body(at) => [at, 0, BODY],
        }
    }
}

impl TryFrom<[u32; 3]> for Frame {
    type Error = UnknownTag;

    ghost try_from_gives = { Decodes };

    fn try_from(words: [u32; 3]) -> Result<Self, UnknownTag> {
        let [x, y, tag] = words;
        match tag {
            LIST => Ok(Frame::List(x)),
            HANDLES => Ok(Frame::Handles {
                stdin: x,
                stdout: y,
            }),
            AND_OR => Ok(Frame::AndOr(x)),
            NOT => Ok(Frame::Not),
            IF => Ok(Frame::If(x)),
            CONDITION => Ok(Frame::Condition(x)),
            BODY => Ok(Frame::Body(x)),
            _ => Err(UnknownTag(tag)),
        }
    }
}

/// One frame more, if there is one to push; or a refusal.
pub fn push_frame(st: &mut Store, process: Process, frame: Option<Frame>) -> Result<(), Refusal>
    ensures { Pushed st.old st.new process.base (framed frame) result }
{
    let Some(frame) = frame else {
        return Ok(());
    };
    extend(st, process.frames(), &<[u32; 3]>::from(frame))
}

/// The last frame, if there is one.
pub fn top(st: &Store, process: Process) -> Option<Frame>
    ensures { result ≡ top_frame (slice_index_or (model st.now) process.base []) }
{
    let words = st.words(process.frames()).last_chunk::<3>()?;
    Frame::try_from(*words).ok()
}

/// The last frame goes, or this one takes its place.
pub fn settle(st: &mut Store, process: Process, frame: Option<Frame>)
    requires has_frame { 3 ≤ length (slice_index_or (model st.old) process.base []) }
    ensures same { bounds st.new ≡ bounds st.old }
    ensures says { model st.new ≡ slice_set (model st.old) process.base (settled (slice_index_or (model st.old) process.base []) frame) }
{
    let frames = process.frames();
    // The store sets words one by one.
    let at = st.len(frames) - SIZE;
    let Some(frame) = frame else {
        st.truncate(frames, at);
        return;
    };
    let [x, y, tag] = <[u32; 3]>::from(frame);
    st.set(frames, at, x);
    st.set(frames, at + 1, y);
    st.set(frames, at + 2, tag);
}
