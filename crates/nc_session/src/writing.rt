//! Writing replies to the sink, however few bytes it takes at once.

ghost use Rattle.std.specs.Prelude.{◌++◌, OnOk, OnErr, IsErrOf};
ghost use Rattle.std.specs.Io.KnownBytes.{Appends};
ghost use Rattle.nc_load.specs.Reading.{HasStopCause};
ghost use Rattle.nc_session.specs.Serving.{AppendsFront};

use nc_load::Stop;
use nc_outside::Sink;

/// Writes all bytes. A write that failed is not tried again: a front of the bytes stands written then.
pub(crate) fn write_all<K: Sink>(output: &mut K, bytes: &[u8]) -> Result<(), Stop>
    ensures written { OnOk result (Appends (K.written output.old) (K.written output.new) bytes.now) }
    ensures begun { OnErr result (AppendsFront (K.written output.old) (K.written output.new) bytes.now) }
    ensures cause { HasStopCause (K.faults output.old) (K.faults output.new) result }
    ensures no_memory { IsErrOf result Stop.Memory → ⊥ }
{
    let mut at = 0;
    'writing: while at < bytes.len() {
        at += output.write(bytes.split_at(at).1)?;
    }
    Ok(())
}

/// Writes bytes and then others, as if they were one text.
pub(crate) fn write_both<K: Sink>(output: &mut K, first: &[u8], second: &[u8]) -> Result<(), Stop>
    ensures written { OnOk result
        (Appends (K.written output.old) (K.written output.new) (first.now ++ second.now)) }
    ensures begun { OnErr result
        (AppendsFront (K.written output.old) (K.written output.new) (first.now ++ second.now)) }
    ensures cause { HasStopCause (K.faults output.old) (K.faults output.new) result }
{
    write_all(output, first)?;
    write_all(output, second)?;
    Ok(())
}
