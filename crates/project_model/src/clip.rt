ghost use Rattle.std.specs.Prelude.{◌≡◌, ◌<◌, ◌^◌, string_bytes, IfOk};
ghost use Rattle.project_model.specs.Clip.{IsReadable, clip_length};

use crate::bounds::CLIP_HEADER_LENGTH;
use rational_time::Time;
use std::alloc::{AllocError, Global};
use std::marker::Model;

/// A `String` that contracts see as its bytes, so that projects are compared by what they say.
#[derive(Debug, Drop)]
pub struct Text {
    string: String,
}

impl Model for Text {
    ghost use Rattle.std.specs.Prelude.{List, ℕ, string_bytes};
    ghost use Rattle.std.specs.Coded.{coded_list, coded_ℕ};

    ghost Value = { List ℕ };

    ghost coded = { coded_list coded_ℕ };

    ghost view = { λ t. string_bytes t.string };
}

impl Text {
    /// The text of a `String`. It takes no memory.
    pub fn from_string(string: String) -> Text
        ensures { result ≡ string_bytes string }
    {
        Text { string }
    }

    /// The `String` of the text. It takes no memory.
    pub fn into_string(self) -> String
        ensures { string_bytes result ≡ self }
    {
        let Text { string } = self;
        string
    }

    /// A text of its own that says the same.
    pub fn try_clone(&self, alloc: Global) -> Result<Text, AllocError>
        ensures { IfOk result (λ copy. copy ≡ self.now) }
    {
        Ok(Text::from_string(String::from_str(alloc, self.as_str())?))
    }

    /// The text.
    pub fn as_str(&self) -> &str
        ensures { result.now ≡ self.now }
    {
        self.string.as_str()
    }
}

/// A clip that a project uses: the name of its file, and what the file has to say of itself. It has `frames` frames, each
/// `frame` long, of `width` by `height` pixels of `depth` bits a channel.
#[derive(Debug, Drop)]
pub struct ClipUse {
    pub name: Text,
    pub width: u32,
    pub height: u32,
    pub depth: u8,
    pub frame: Time,
    pub frames: u32,
}

impl ClipUse {
    /// The same clip, with a name of its own.
    pub fn try_clone(&self, alloc: Global) -> Result<ClipUse, AllocError>
        ensures { IfOk result (λ copy. copy ≡ self.now) }
    {
        Ok(ClipUse {
            name: self.name.try_clone(alloc)?,
            width: self.width,
            height: self.height,
            depth: self.depth,
            frame: self.frame,
            frames: self.frames,
        })
    }

    /// How many bytes the file has that is declared so: its header and its pixels.
    pub fn file_length(&self) -> u64
        requires { IsReadable self.now }
        ensures value { result ≡ clip_length self.now }
        ensures small { result < 2 ^ 43 }
    {
        let area = u64::from(self.width) * u64::from(self.height);
        let size = if self.depth == 8 { 4 } else { 8 };
        u64::from(CLIP_HEADER_LENGTH) + u64::from(self.frames) * area * size
    }
}
