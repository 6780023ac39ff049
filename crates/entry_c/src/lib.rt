// The entries for other languages under the names and the calling convention of C (include/sua.h, include/m3ua.h): each calls
// its own of crate entry, and promises the same.
#![tactic(auto)]

ghost use Rattle.std.specs.Prelude.{◌≡◌};
ghost use Rattle.bcd.specs.Outcome.{deliver};
ghost use Rattle.bcd.specs.Digits.{built_in};
ghost use Rattle.form.specs.Form.{settled};
ghost use Rattle.report.specs.Report.{entered, enter};
ghost use Rattle.m3ua.specs.Form.{settled as m3ua·settled};
ghost use Rattle.flat.specs.Account.{account, m3ua_account};
ghost use Rattle.flat.specs.Flat.{encode_flat, encode_m3ua_flat};
ghost use Rattle.sccp.specs.Sccp.{to_sccp, from_sccp};
ghost use Rattle.tally.specs.Rows.{rows};
ghost use Rattle.tally.specs.Tally.{tally};
ghost use Rattle.entry.specs.Entries.{entered_rows, enter_rows};

// Writes the settled form of a message. Reading's refusals, then each address's, 9, 10 in wire order, then 14. The report is
// written by every call, refused or not, here and below.
#[unsafe(no_mangle)]
pub extern "C" fn sua_settle(input: &[u8], out: &mut [u8], report: &mut [u64]) -> u64
    ensures { entered result out.new report.new
        ≡ enter (deliver (settled built_in input.now) out.old) report.old }
{
    entry::sua_settle(input, out, report)
}

// Writes a flat account of a message with its addresses, of at most 2,621,426 octets. Reading's refusals, then each
// address's in wire order, then 14.
#[unsafe(no_mangle)]
pub extern "C" fn sua_read(input: &[u8], out: &mut [u8], report: &mut [u64]) -> u64
    ensures { entered result out.new report.new
        ≡ enter (deliver (account built_in input.now) out.old) report.old }
{
    entry::sua_read(input, out, report)
}

// Writes the message of a class, a type and a flat list of parameters. 4, 15, 10 in order, 12, 14. 12 is the message's; the
// list has no bound of its own.
#[unsafe(no_mangle)]
pub extern "C" fn sua_encode(
    class: u8,
    msg_type: u8,
    list: &[u8],
    out: &mut [u8],
    report: &mut [u64],
) -> u64
    ensures { entered result out.new report.new
        ≡ enter (deliver (encode_flat class msg_type list.now) out.old) report.old }
{
    entry::sua_encode(class, msg_type, list, out, report)
}

// Tallies one message under a member list, and reports the row that gained. 16, before the message is read.
#[unsafe(no_mangle)]
pub extern "C" fn sua_tally(
    digits: &[u8],
    lengths: &[u8],
    input: &[u8],
    messages: &mut [u64],
    octets: &mut [u64],
    report: &mut [u64],
) -> u64
    ensures { entered_rows result (rows messages.new octets.new) report.new
        ≡ enter_rows (tally digits.now lengths.now input.now
        (rows messages.old octets.old)) report.old }
{
    entry::sua_tally(digits, lengths, input, messages, octets, report)
}

// Writes the SCCP party address of an address value. The value's reading's refusals, then 17, then 14.
#[unsafe(no_mangle)]
pub extern "C" fn sua_to_sccp(value: &[u8], out: &mut [u8], report: &mut [u64]) -> u64
    ensures { entered result out.new report.new
        ≡ enter (deliver (to_sccp value.now) out.old) report.old }
{
    entry::sua_to_sccp(value, out, report)
}

// Writes the address value of an SCCP party address. 12, 18, 14.
#[unsafe(no_mangle)]
pub extern "C" fn sua_from_sccp(octets: &[u8], out: &mut [u8], report: &mut [u64]) -> u64
    ensures { entered result out.new report.new
        ≡ enter (deliver (from_sccp octets.now) out.old) report.old }
{
    entry::sua_from_sccp(octets, out, report)
}

// Writes the settled form of an M3UA message. Reading's refusals, then 6 for each Protocol Data in wire order, then 14.
#[unsafe(no_mangle)]
pub extern "C" fn m3ua_settle(input: &[u8], out: &mut [u8], report: &mut [u64]) -> u64
    ensures { entered result out.new report.new
        ≡ enter (deliver (m3ua·settled input.now) out.old) report.old }
{
    entry::m3ua_settle(input, out, report)
}

// Writes a flat account of an M3UA message with its Protocol Data, of at most 2,621,426 octets. Reading's refusals, then 6 for
// each Protocol Data in wire order, then 14.
#[unsafe(no_mangle)]
pub extern "C" fn m3ua_read(input: &[u8], out: &mut [u8], report: &mut [u64]) -> u64
    ensures { entered result out.new report.new
        ≡ enter (deliver (m3ua_account input.now) out.old) report.old }
{
    entry::m3ua_read(input, out, report)
}

// Writes the M3UA message of a class, a type and a flat list of parameters. 4, 15, 10 in order, 12, 14, as `sua_encode`.
#[unsafe(no_mangle)]
pub extern "C" fn m3ua_encode(
    class: u8,
    msg_type: u8,
    list: &[u8],
    out: &mut [u8],
    report: &mut [u64],
) -> u64
    ensures { entered result out.new report.new
        ≡ enter (deliver (encode_m3ua_flat class msg_type list.now) out.old) report.old }
{
    entry::m3ua_encode(class, msg_type, list, out, report)
}
