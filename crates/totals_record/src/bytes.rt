// Bytes that are cleared.
ghost use Rattle.std.specs.Prelude.{◌≡◌, length};
ghost use Rattle.totals_record.specs.Written.{zero_bytes};

// All of a list at 0.
pub fn clear_bytes(bytes: &mut [u8])
    ensures { bytes.new ≡ zero_bytes (length bytes.old) }
{
    bytes.fill(0);
}
