// The number of a response (document 01, the response table, and the requests of document 02).
#![tactic(auto)]

ghost use Rattle.std.specs.Prelude.{◌≡◌};
ghost use Rattle.nucleus.specs.Responses.{number};

use nucleus::Response;

// The number for a cause.
pub fn number(response: Response) -> u16
    ensures { result ≡ number response }
{
    match response {
        Response::Good => 0,
        Response::DefinitionInvalid => 10,
        Response::BufferTooShort => 11,
        Response::StateInvalid => 12,
        Response::CommandUnknown => 22,
        Response::UserUnknown => 72,
        Response::BackedOut => 9,
        Response::TransactionReady => 211,
        Response::AccessOnly => 29,
        Response::NoTransaction => 212,
        Response::FileUnknown => 17,
        Response::IsnInvalid => 113,
        Response::FormatInvalid => 41,
        Response::FieldTwice => 44,
        Response::RecordLength => 53,
        Response::ValueInvalid => 55,
        Response::NotFound => 3,
        Response::Waiting => 20,
        Response::HeldByAnother => 145,
        Response::Presence => 113,
        Response::NotHeld => 144,
        Response::AlreadyChanged => 146,
        Response::FileFull => 75,
        Response::HoldLimit => 47,
        Response::QueueFull => 70,
        Response::ValueTaken => 198,
    }
}
