// Which example a text asks for.
ghost use Rattle.std.specs.Prelude.{◌≡◌};
ghost use Rattle.std.specs.Result.{result_ok};
ghost use Rattle.tape.specs.Input.{example_in};

use rules::examples::{Example, NoSuchExample};

// One digit, with at most one line end after it.
pub fn asked(text: &[u8]) -> Result<Example, NoSuchExample>
    ensures { result_ok result ≡ example_in text.now }
{
    match text {
        [digit] | [digit, b'\n'] | [digit, b'\r', b'\n'] => Example::try_from(*digit),
        _ => Err(NoSuchExample),
    }
}
