// Why a line of a day was refused: by which layer, and with nothing lost of what that layer said.
ghost use Rattle.std.specs.Prelude.{◌≡◌};
ghost use Rattle.session.specs.declared.fault.Cause.TheVariants.{Text};
ghost use Rattle.session.specs.Faults.{cause_of, layer_in, number_in, field_in, refused};

use market::refusal::Refusal;
use playback::reply::{CallRefusal, OTHER_PHASE};
use text::printed::{Layer, Printed};
use text::read::Fault as TextFault;

#[derive(Clone, Copy)]
pub enum Cause {
    // the line says nothing, as its reader found
    Text(TextFault),
    // the line belongs to another phase of the day
    OtherPhase,
    Market(Refusal),
}

impl From<TextFault> for Cause {
    ghost from_gives = { λ fault whole. whole ≡ Text fault };

    fn from(fault: TextFault) -> Cause {
        Cause::Text(fault)
    }
}

impl From<CallRefusal> for Cause {
    ghost from_gives = { λ refusal whole. whole ≡ cause_of refusal };

    fn from(refusal: CallRefusal) -> Cause {
        match refusal {
            CallRefusal::OtherPhase => Cause::OtherPhase,
            CallRefusal::Market(refusal) => Cause::Market(refusal),
        }
    }
}

impl Cause {
    fn layer(self) -> Layer
        ensures { result ≡ layer_in self }
    {
        match self {
            Cause::Text(_) => Layer::Text,
            Cause::OtherPhase => Layer::Session,
            Cause::Market(_) => Layer::Market,
        }
    }

    fn number(self) -> u32
        ensures { result ≡ number_in self }
    {
        match self {
            Cause::Text(fault) => fault.cause.code(),
            Cause::OtherPhase => OTHER_PHASE,
            Cause::Market(refusal) => refusal.number(),
        }
    }

    // Only a text has fields.
    fn field(self) -> u32
        ensures { result ≡ field_in self }
    {
        match self {
            Cause::Text(fault) => fault.field,
            Cause::OtherPhase | Cause::Market(_) => 0,
        }
    }
}

// The number of the line, and what is wrong with it.
#[derive(Clone, Copy)]
pub struct Fault {
    pub line: u32,
    pub cause: Cause,
}

impl Fault {
    // As it is printed.
    pub fn printed(self) -> Printed
        ensures { result ≡ refused self }
    {
        Printed::Refused {
            line: self.line,
            layer: self.cause.layer(),
            number: self.cause.number(),
            field: self.cause.field(),
        }
    }
}
