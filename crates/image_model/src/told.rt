// What a call of the face tells: the number of its refusal, and what `out` gets.
ghost use Rattle.std.specs.Prelude.{◌≡◌, ◌∷◌, []};
ghost use Rattle.identifiers.specs.Answer as answer;
ghost use Rattle.image_model.specs.Told.{told};

use answers::answer::Values;
use identifiers::error::Refusal;

#[derive(Clone, Copy, Debug, PartialEq, Eq)]
pub struct Told {
    // A number, since the C interface answers one.
    pub number: u32,
    pub out: u64,
}

impl Told {
    // Refusals 6 and 7: a bad image, and a number that is no width.
    pub const BAD_IMAGE: Told = Told { number: 6, out: 0 };

    pub const BAD_WIDTH: Told = Told { number: 7, out: 0 };

    pub fn refused(refusal: Refusal) -> Self
        ensures { result ≡ told (answer.told_refusal refusal) }
    {
        Told {
            number: refusal.number(),
            out: match refusal.carried() {
                Some(raw) => raw as u64,
                None => 0,
            },
        }
    }

    pub fn done(out: u64) -> Self
        ensures { result ≡ told (answer.done (out ∷ [])) }
    {
        Told { number: 0, out }
    }

    // C gets the number, and `out` the rest.
    pub fn tell(self, out: &mut u64) -> u32
        ensures { record { number = result; out = out.new } ≡ self }
    {
        *out = self.out;
        self.number
    }

    // What an answer tells, whatever it hands out.
    pub fn of<T: Values>(called: Result<T, Refusal>) -> Self
        ensures { result ≡ told (answer.told T.values called) }
    {
        match called {
            Ok(values) => Told::done(values.first()),
            Err(refusal) => Told::refused(refusal),
        }
    }
}
