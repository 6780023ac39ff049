// One walk over the sub-parameters of an address value: which hold, which is too short, and what the others take.
ghost use Rattle.std.specs.Prelude.{◌≡◌, ◌≤◌};
ghost use Rattle.bcd.specs.Outcome.{mapped, bounded};
ghost use Rattle.bcd.specs.Answers.{outcome_of};
ghost use Rattle.parameter.specs.Walk.{places};
ghost use Rattle.address.specs.Parts.{nothing, sooner, noted, note_all};

use bcd::error::Refusal;
use parameter::{Parameters, Place, tags};

// The first sub-parameter that is too short for its tag; the last title, point code and SSN; and of the others, how many
// there are and what they take on the wire.
#[derive(Clone, Copy, Debug, PartialEq, Eq)]
pub struct Parts {
    pub short: Option<Place>,
    pub title: Option<Place>,
    pub code: Option<Place>,
    pub ssn: Option<Place>,
    pub other_count: usize,
    pub other_length: usize,
}

// The first of two sub-parameters that is too short: the one kept, or this one if its value has under `least` octets.
fn first_short(short: Option<Place>, place: Place, least: usize) -> Option<Place>
    ensures { result ≡ sooner short place least }
{
    short.or((place.length < least).then_some(place))
}

impl Parts {
    // Nothing is kept before the walk.
    fn none() -> Parts
        ensures { result ≡ nothing }
    {
        Parts {
            short: None,
            title: None,
            code: None,
            ssn: None,
            other_count: 0,
            other_length: 0,
        }
    }

    // One sub-parameter more. The last of each kind holds.
    #[tactic(auto, unfolding(crate::specs::Parts::noted))]
    fn note(self, place: Place) -> Parts
        requires other_count_bound { self.other_count ≤ 1048576 }
        requires other_length_bound { self.other_length ≤ 1048576 }
        requires length_bound { place.length ≤ 1048576 }
        ensures { result ≡ noted self place }
    {
        match place.tag {
            tags::GLOBAL_TITLE => Parts {
                short: first_short(self.short, place, 8),
                title: Some(place),
                ..self
            },
            tags::POINT_CODE => Parts {
                short: first_short(self.short, place, 4),
                code: Some(place),
                ..self
            },
            tags::SUBSYSTEM_NUMBER => Parts {
                short: first_short(self.short, place, 4),
                ssn: Some(place),
                ..self
            },
            _ => Parts {
                other_count: self.other_count + 1,
                other_length: self.other_length + (4 + place.length).next_multiple_of(4),
                ..self
            },
        }
    }
}

// Walks the sub-parameters behind the first four octets. 12, then 5 or 6 in wire order.
pub(crate) fn survey(value: &[u8]) -> Result<Parts, Refusal>
    ensures { outcome_of result
        ≡ bounded value.now (mapped (note_all nothing) (places value.now 4)) }
{
    let mut parts = Parts::none();
    for place in Parameters::new(value, 4) {
        parts = parts.note(place?);
    }
    Ok(parts)
}
