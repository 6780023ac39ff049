// What an address of SUA that converts and its party address of SCCP have in common: a few numbers, and digits, which stay half
// octets in the octets read.
ghost use Rattle.std.specs.Prelude.{◌≡◌, true, ◌+◌, ◌*◌, ◌/◌, ◌≤◌, length, unwrap_or};
ghost use Rattle.bcd.specs.Digits.{built_in, digits_in};
ghost use Rattle.sccp.specs.Sccp.{known};

use bcd::rewrite::rewritten_digits_length;

// Digits: so many half octets of these octets, from the first on, none of which reads as `?`.
#[derive(Clone, Copy)]
pub(crate) struct Digits<'a> {
    pub(crate) octets: &'a [u8],
    pub(crate) count: usize,
    ghost few: { count ≤ 255 },
    ghost whole: { length octets.now ≡ (count + 1) / 2 },
    ghost known: { known (digits_in built_in octets.now count) ≡ true },
}

// A title of indicator 4.
#[derive(Clone, Copy)]
pub(crate) struct Title<'a> {
    pub(crate) translation_type: u8,
    pub(crate) numbering_plan: u8,
    pub(crate) nature_of_address: u8,
    pub(crate) digits: Digits<'a>,
    ghost plan: { numbering_plan ≤ 15 },
    ghost nature: { nature_of_address ≤ 127 },
}

// An address that converts, routed on its title or on SSN and point code.
#[derive(Clone, Copy)]
pub(crate) struct Common<'a> {
    pub(crate) on_title: bool,
    pub(crate) point_code: Option<u16>,
    pub(crate) ssn: Option<u8>,
    pub(crate) title: Option<Title<'a>>,
    ghost code: { unwrap_or point_code 0 ≤ 16383 },
}

impl<'a> Digits<'a> {
    ghost use Rattle.std.specs.Prelude.{option_map, Some, None};
    ghost use Rattle.bcd.specs.Outcome.{accepted, pick, delivered, deliver};
    ghost use Rattle.sccp.specs.Steps.{digits_from, packed};

    // Digits read: as many as the count says, or as there are. None where one is `?`.
    pub(crate) fn new(octets: &'a [u8], count: u8) -> Option<Digits<'a>>
        ensures { let digits = digits_in built_in octets.entry.now count in
            option_map digits_from result ≡ pick (known digits) (Some digits) None }
    {
        let count = usize::from(count).min(2 * octets.len());
        let octets = &octets[..count.div_ceil(2)];
        match rewritten_digits_length(octets, count as u8) {
            Ok(_) => Some(Digits { octets, count }),
            Err(_) => None,
        }
    }

    // Stores the half octets at the front of a slice, behind an odd number one of 0, and tells how many octets they take.
    #[tactic(auto, unfolding(bcd::specs::Outcome::deliver))]
    pub(crate) fn put(self, out: &mut [u8]) -> usize
        requires { length self.octets.now ≤ length out.old }
        ensures size { result ≡ length self.entry.octets.now }
        ensures written { delivered (accepted result) out.new ≡ deliver (accepted (packed self.entry)) out.old }
    {
        let whole = self.count / 2;
        out[..whole].copy_from_slice(&self.octets[..whole]);
        if self.count % 2 == 1 {
            out[whole] = self.octets[whole] % 16;
        }
        self.octets.len()
    }
}
