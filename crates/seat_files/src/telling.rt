//! What a fault is told with, as copies: so a refusal refers to nothing, and is passed on as it is.
ghost use Rattle.std.specs.Prelude.{◌≡◌, ◌≤◌, length};

use arrayvec::ArrayString;

/// A text of at most so many bytes. Of a longer one it has the letters that come first.
#[derive(Clone, Copy)]
pub(crate) struct Told<const MOST: usize> {
    text: ArrayString<MOST>,
}

/// The name of a file, or a word.
pub(crate) type ToldName = Told<1023>;

/// Why something is refused, what a name ends with, or a key of a season.
pub(crate) type ToldWords = Told<64>;

impl<const MOST: usize> Told<MOST> {
    pub(crate) fn of(text: &str) -> Told<MOST>
        ensures whole { length text.now ≤ MOST → result.text.bytes ≡ text.now }
    {
        match ArrayString::from(text) {
            Ok(text) => Told { text },
            Err(_) => Told::begun(text),
        }
    }

    /// The letters that come first, as many as there is room for.
    fn begun(text: &str) -> Told<MOST> {
        let mut begun = ArrayString::new();
        for letter in text.chars() {
            if begun.try_push(letter).is_err() {
                break;
            }
        }
        Told { text: begun }
    }

    pub(crate) fn as_str(&self) -> &str
        ensures { result.now ≡ self.now.text.bytes }
    {
        self.text.as_str()
    }
}
