// A parameter of a message, as settling goes over it.
ghost use Rattle.form.specs.Family.{Carried};

use parameter::Place;

// A parameter as a message holds it: one that the wire can carry.
#[derive(Clone, Copy)]
pub struct Item<'a> {
    pub tag: u16,
    pub value: &'a [u8],
    ghost carried: { Carried tag value.now },
}

impl<'a> Item<'a> {
    ghost use Rattle.std.specs.Prelude.{◌≡◌};
    ghost use Rattle.parameter.specs.Walk.{valued};
    ghost use Rattle.form.specs.Items.{held};

    // The parameter at a place of a message.
    pub(crate) fn at(place: Place, input: &'a [u8]) -> Item<'a>
        requires { Carried place.tag (valued input.now place).value }
        ensures { held result ≡ valued input.entry.now place }
    {
        Item {
            tag: place.tag,
            value: place.value(input),
        }
    }
}
