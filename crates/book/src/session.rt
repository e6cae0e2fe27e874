// The session of a day, and how calls move it.
ghost use Rattle.std.specs.Prelude.{◌≡◌};
ghost use Rattle.std.specs.Result.{result_err};
ghost use Rattle.book.specs.Sessions.{session_ground, session_then, is_closed as closed, is_continuous as continuous};

use crate::call::Call;
use market::ground::Ground;

#[derive(Clone, Copy, PartialEq, Eq)]
pub enum Session {
    PreOpen,
    Continuous,
    Closed,
}

impl Session {
    // Moves on with a call, or refuses it and stays.
    pub fn advance<R: Copy>(&mut self, call: &Call<R>) -> Result<(), Ground>
        ensures answer { result_err result ≡ session_ground self.old call.now }
        ensures moved { self.new ≡ session_then self.old call.now }
    {
        match (*self, call) {
            (Session::Closed, _) => Err(Ground::Closed),
            (Session::PreOpen, Call::Sdl(_)) => Err(Ground::Session),
            (Session::PreOpen, Call::Start) => {
                *self = Session::Continuous;
                Ok(())
            }
            (Session::PreOpen, Call::Quote(_) | Call::Dark(_) | Call::Lit(_)) => Ok(()),
            (Session::Continuous, Call::Start) => Err(Ground::Session),
            (Session::Continuous, Call::Quote(_) | Call::Dark(_) | Call::Sdl(_) | Call::Lit(_)) =>
                Ok(()),
        }
    }

    pub fn is_closed(self) -> bool
        ensures { result ≡ closed self }
    {
        self == Session::Closed
    }

    pub fn is_continuous(self) -> bool
        ensures { result ≡ continuous self }
    {
        self == Session::Continuous
    }
}
