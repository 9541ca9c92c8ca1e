// Notice lines and report lines.
ghost use Rattle.std.specs.Prelude.{◌≡◌};
ghost use Rattle.report.specs.declared.ReportFields.{ReportFields};
ghost use Rattle.c_values.specs.Outcomes.{outcome_of};
ghost use Rattle.c_streams.specs.Lines.{read_out, write_out, report_out};

use report::ReportFields;

// Reads the notice line at the start of input into frame (258 bytes). 0, and the frame's length and the bytes used; or 1 (short), 9 (garbled).
#[unsafe(no_mangle)]
pub extern "C" fn zorpedi_read_notice(
    frame: &mut [u8],
    length: &mut usize,
    used: &mut usize,
    input: &[u8],
) -> u8
    ensures { (result, (length.new, used.new), frame.new)
        ≡ read_out input.now frame.old (length.old, used.old) }
{
    match notice::read_notice(frame, input) {
        Ok(read) => {
            *length = read.length;
            *used = read.used;
            0
        }
        Err(refusal) => refusal.number(),
    }
}

// Writes the line of a frame into line (517 bytes). 0, and the line's length; or 1 (short), 9 (garbled).
#[unsafe(no_mangle)]
pub extern "C" fn zorpedi_write_notice(line: &mut [u8], length: &mut usize, frame: &[u8]) -> u8
    ensures { (result, length.new, line.new) ≡ write_out frame.now line.old length.old }
{
    match notice::write_notice(line, frame) {
        Ok(end) => {
            *length = end;
            0
        }
        Err(refusal) => refusal.number(),
    }
}

// Writes the report line of an answer into line (48 bytes). 0, and the line's length; or 1 (short).
#[unsafe(no_mangle)]
pub extern "C" fn zorpedi_report(
    line: &mut [u8],
    length: &mut usize,
    number: u32,
    answer: u8,
    depots: u16,
    chain: u16,
    pairs: u32,
    searches: u16,
) -> u8
    ensures { let fields : ReportFields = record {
      number = number;
      outcome = outcome_of answer;
      depots = depots;
      chain = chain;
      pairs = pairs;
      searches = searches;
    } in
        (result, length.new, line.new) ≡ report_out fields line.old length.old }
{
    let outcome = c_values::outcome_of(answer);
    let fields = ReportFields {
        number,
        outcome,
        depots,
        chain,
        pairs,
        searches,
    };
    match report::write_report(line, fields) {
        Ok(end) => {
            *length = end;
            0
        }
        Err(refusal) => refusal.number(),
    }
}
