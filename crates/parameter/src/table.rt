// A run of parameters as records in a lent slice: read into it, written from it, and looked for by tag (parameter.rs;
// document 01, module 2).
ghost use Rattle.std.specs.Prelude.{◌≡◌, List, [], map, ℕ, ◌≤◌, length, take};
ghost use Rattle.bcd.specs.Outcome.{accepted, refused, pick, after, mapped, each, bounded, fit64, delivered, deliver};
ghost use Rattle.bcd.specs.Answers.{outcome_of};
ghost use Rattle.parameter.specs.Parameter.{encode_param, encode_params};
ghost use Rattle.parameter.specs.Walk.{places, valued};
ghost use Rattle.parameter.specs.Table.{tabulated, tabulate, records, find_param};

use crate::{Parameters, Place, put, wire_length};
use bcd::error::{Refusal, within};

// How many parameters there are from a position on. 12, then 5 or 6.
pub fn count(bytes: &[u8], from: usize) -> Result<usize, Refusal>
    ensures { outcome_of result ≡ mapped length (bounded bytes.now (places bytes.now from)) }
{
    Parameters::new(bytes, from).try_fold(0, |n, place| place.map(|_| n + 1))
}

// Stores the places of all parameters from a position on, in rows that are as many.
fn store(bytes: &[u8], from: usize, rows: &mut [Place])
    requires { accepted (length rows.old) ≡ mapped length (bounded bytes.now (places bytes.now from)) }
    ensures { accepted rows.new ≡ bounded bytes.now (places bytes.now from) }
{
    for (n, place) in Parameters::new(bytes, from).enumerate() {
        let Ok(place) = place else {
            return;
        };
        rows[n] = place;
    }
}

// Reads the run of parameters from a position on into a lent slice. 12, then 5 or 6 in wire order, then 13.
pub fn decode_parameters_from(
    bytes: &[u8],
    from: usize,
    rows: &mut [Place],
) -> Result<usize, Refusal>
    ensures { tabulated (outcome_of result) rows.new
        ≡ tabulate (bounded bytes.now (places bytes.now from)) rows.old }
{
    let needed = count(bytes, from)?;
    if rows.len() < needed {
        return Err(Refusal::TableTooSmall(needed));
    }
    store(bytes, from, &mut rows[..needed]);
    Ok(needed)
}

// Reads a run of parameters into a lent slice: each one's tag, and where its value starts and how long it is.
pub fn decode_parameters(bytes: &[u8], rows: &mut [Place]) -> Result<usize, Refusal>
    ensures { tabulated (outcome_of result) rows.new
        ≡ tabulate (bounded bytes.now (places bytes.now 0)) rows.old }
{
    decode_parameters_from(bytes, 0, rows)
}

// Records of a lent table, over the octets that hold their values.
#[derive(Clone, Copy)]
pub struct Records<'v, 'r> {
    pub values: &'v [u8],
    pub rows: &'r [Place],
}

impl<'v, 'r> Records<'v, 'r> {
    // The records of a table over these octets.
    pub fn new(values: &'v [u8], rows: &'r [Place]) -> Records<'v, 'r>
        ensures values { result.values.now ≡ values.now }
        ensures rows { result.rows.now ≡ rows.now }
    {
        Records { values, rows }
    }

    // Whether the count, or a record, reaches outside its lent slice: 15.
    pub fn outside(self, count: usize) -> bool
        ensures { records self.entry.values.now self.entry.rows.now count
            ≡ pick result (refused 15 [])
            (accepted (map (valued self.entry.values.now) (take count self.entry.rows.now))) }
    {
        if self.rows.len() < count {
            return true;
        }
        let length = self.values.len();
        !self.rows[..count].iter().all(|row| row.ends_within(length))
    }

    // What the parameters of the records take on the wire together. 15, then 10 in order.
    pub fn parameters_length(self, count: usize) -> Result<usize, Refusal>
        ensures { outcome_of result
            ≡ mapped (λ (os : List ℕ). fit64 (length os))
            (after (records self.entry.values.now self.entry.rows.now count) (each encode_param)) }
    {
        if self.outside(count) {
            return Err(Refusal::OutsideSlice);
        }
        let mut total: usize = 0;
        for &row in &self.rows[..count] {
            total = total.saturating_add(wire_length(row.tag, row.length)?);
        }
        Ok(total)
    }

    // Writes the parameters of the records, which take `total` octets.
    fn write_run(self, count: usize, total: usize, out: &mut [u8])
        requires total_value { accepted total
            ≡ mapped length (after (records self.values.now self.rows.now count) (each encode_param)) }
        requires total_in_bounds { total ≤ length out.old }
        ensures { delivered (accepted total) out.new
            ≡ deliver
            (after (records self.entry.values.now self.entry.rows.now count) (each encode_param))
            out.old }
    {
        let mut at: usize = 0;
        for &row in &self.rows[..count] {
            let end = row.start + row.length;
            put(row.tag, &self.values[row.start..end], &mut out[at..]);
            at += (row.length + 4).next_multiple_of(4);
        }
    }

    // Writes the parameters of the records. 15, 10 in order, 12, 14.
    pub fn encode_parameters(self, count: usize, out: &mut [u8]) -> Result<usize, Refusal>
        ensures { delivered (outcome_of result) out.new
            ≡ deliver
            (after (records self.entry.values.now self.entry.rows.now count) encode_params)
            out.old }
    {
        let n = self.parameters_length(count)?;
        within(n)?;
        if out.len() < n {
            return Err(Refusal::OutputTooSmall(n));
        }
        self.write_run(count, n, out);
        Ok(n)
    }

    // The first record with a tag. 15.
    pub fn find_parameter(self, count: usize, tag: u16) -> Result<Option<Place>, Refusal>
        ensures { outcome_of result
            ≡ find_param self.entry.values.now self.entry.rows.now count tag }
    {
        if self.outside(count) {
            return Err(Refusal::OutsideSlice);
        }
        let found = self.rows[..count].iter().find(|row| row.tag == tag);
        Ok(found.copied())
    }
}
