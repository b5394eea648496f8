// Lines with numbers, a record's fields, a text or a refusal, each put to a writer.
use base::Place;
use std::io;
use std::io::Write;
use usn_record::UsnRecord;
use usn_record::bytes::{byte_at, le_u16, signed_bits};

// A line that no recording has: the number of a refusal, which is any.
pub fn write_refused<W: Write>(out: &mut W, n: u32) -> io::Result<()> {
    write_count(out, b"refused ", n as u64)?;
    out.write_all(b"\n")
}

// A word and a number.
pub fn write_count<W: Write>(out: &mut W, word: &[u8], n: u64) -> io::Result<()> {
    out.write_all(word)?;
    write!(out, "{n}")
}

// A number and a space.
pub fn write_field<W: Write>(out: &mut W, n: u64) -> io::Result<()> {
    write!(out, "{n} ")
}

// A line: the fields that the original has, and the units of the name, whose place counts from the start of bytes.
pub fn write_record<W: Write>(out: &mut W, r: UsnRecord, bytes: &[u8]) -> io::Result<()> {
    for field in [
        r.mft_entry,
        r.mft_sequence as u64,
        r.parent_mft_entry,
        r.parent_mft_sequence as u64,
        signed_bits(r.usn),
        r.timestamp.seconds,
        r.timestamp.nanoseconds as u64,
        r.reason as u64,
        r.file_attributes as u64,
        r.source_info as u64,
        r.security_id as u64,
        r.major_version as u64,
    ] {
        write_field(out, field)?;
    }
    write_name(out, r.filename, bytes)
}

// The units of a name, four hexadecimal digits each, or a dash.
fn write_name<W: Write>(out: &mut W, name: Place, bytes: &[u8]) -> io::Result<()> {
    let start = name.offset;
    let length = name.length;
    if length == 0 {
        out.write_all(b"-")?;
    }
    if length <= bytes.len() {
        if start <= bytes.len() - length {
            let end = start + length;
            write_units(out, &bytes[start..end])?;
        }
    }
    out.write_all(b"\n")
}

fn write_units<W: Write>(out: &mut W, units: &[u8]) -> io::Result<()> {
    for unit in units.chunks(2) {
        let unit = le_u16(unit, 0);
        write!(out, "{unit:04x}")?;
    }
    Ok(())
}

// A line: the first n bytes of a text in hexadecimal, 00 for one past its end, or a dash where n is 0.
pub fn write_hex<W: Write>(out: &mut W, text: &[u8], n: usize) -> io::Result<()> {
    if n == 0 {
        out.write_all(b"-")?;
    }
    write_digits(out, text, n)?;
    out.write_all(b"\n")
}

// Two digits a byte. An index and no slice's iterator, since n may pass the text.
fn write_digits<W: Write>(out: &mut W, text: &[u8], n: usize) -> io::Result<()> {
    for i in 0..n {
        let byte = byte_at(text, i);
        write!(out, "{byte:02x}")?;
    }
    Ok(())
}
