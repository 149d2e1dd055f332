// A job's sheet, written.
ghost use Rattle.std.specs.Prelude.{◌≡◌, length};
ghost use Rattle.list_laws.specs.Front.{over};
ghost use Rattle.refusals.specs.Answers.{left};
ghost use Rattle.job_sheet.specs.Sheets.{sheet_length};
ghost use Rattle.job_sheet_bytes.specs.Jobs.{given, sheet_of};
ghost use Rattle.job_sheet_writer.specs.Writes.{sheet_refusal};

use c_answers::tell_number;
use job_sheet_writer::sheet_write;

// As `job_sheet_writer::sheet_write`, the sheet's length in `bytes`; where the call is refused, that keeps what it held.
#[unsafe(no_mangle)]
pub extern "C" fn copperhook_sheet_write(
    n: usize,
    floor: usize,
    a: &[usize],
    b: &[usize],
    m: &[f64],
    us: &[usize],
    vs: &[usize],
    betas: &[f64],
    sheet: &mut [u8],
    bytes: &mut usize,
) -> usize
    ensures value { result ≡ sheet_refusal n floor a.now b.now m.now us.now vs.now betas.now
        (length sheet.old) }
    ensures sheet_after { sheet.new ≡ left result (over (sheet_of (given n floor a.now b.now m.now us.now vs.now
        betas.now)) sheet.old) sheet.old }
    ensures bytes_after { bytes.new ≡ left result (sheet_length (length a.now) (length betas.now) (length us.now))
        bytes.old }
{
    let answer = sheet_write(n, floor, a, b, m, us, vs, betas, sheet);
    tell_number(answer, bytes)
}
