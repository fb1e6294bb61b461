//! What the words of a call ask for.
ghost use Rattle.std.specs.Prelude.{◌≡◌, map, string_bytes};
ghost use Rattle.std.specs.Process.{exit_status};
ghost use Rattle.margin.specs.Requests.{request_of, status};

use std::process::ExitCode;

#[derive(Clone, Copy, PartialEq, Eq, Debug)]
pub enum Request {
    /// A run is on standard input.
    Run,
    Help,
    /// The words are none that the program knows.
    Unknown,
}

impl Request {
    /// What the words behind the program's name ask for.
    pub fn of_words(words: &[String]) -> Request
        ensures { result ≡ request_of (map string_bytes words.now) }
    {
        match words {
            [] => Request::Run,
            [word] if word.as_str() == "--help" || word.as_str() == "-h" => Request::Help,
            _ => Request::Unknown,
        }
    }

    /// The exit status of a call that nothing fails.
    pub fn status(self) -> ExitCode
        ensures { exit_status result ≡ status self }
    {
        match self {
            Request::Run | Request::Help => ExitCode::SUCCESS,
            Request::Unknown => ExitCode::from(2),
        }
    }
}
