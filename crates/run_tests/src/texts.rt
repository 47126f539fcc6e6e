//! The texts of errors, of which the program prints few.
use commands::RunError;
use font_cut::{DirError, FontError, JoinAllError, JoinError, Which, WriteFault};
use sfnt_bytes::Tag;
use std::alloc::Global;
use std::fmt::Display;
use std::test::Fail;
use streams::ReadError;

// Returns whether an error has this text.
fn says<E: Display>(alloc: Global, error: &E, text: &str) -> Result<bool, Fail> {
    Ok(error.to_string(alloc)?.as_str() == text)
}

#[test]
fn texts_of_run_errors(rt: HostRuntime) -> Result<(), Fail> {
    let step = JoinAllError::At {
        step: 1,
        error: JoinError::NotACut(Which::Second),
    };
    let font = FontError::from(DirError::TableOutOfFile(Tag(*b"maxp")));
    for (error, number, text) in [
        (RunError::Read(428), 25, "read fault after 428"),
        (RunError::Memory, 16, "no memory"),
        (RunError::Write(100), 19, "write fault after 100"),
        (RunError::Font(font), 6, "table out of file maxp"),
        (
            RunError::OneOf(Which::Second, font),
            6,
            "table out of file maxp",
        ),
        (RunError::TooLarge(134_217_752), 18, "too large 134217752"),
        (RunError::Join(step), 20, "not a cut: second"),
    ] {
        let is_stated = error.number() == number && says(rt.alloc(), &error, text)?;
        assert!(rt; is_stated, "{text}");
    }
    Ok(())
}

#[test]
fn texts_of_read_errors_and_write_faults(rt: HostRuntime) -> Result<(), Fail> {
    for (error, number, text) in [
        (ReadError::ReadFault(428), 25, "read fault after 428"),
        (ReadError::NoMemory, 16, "no memory"),
    ] {
        let is_stated = error.number() == number && says(rt.alloc(), &error, text)?;
        assert!(rt; is_stated, "{text}");
    }
    let fault = WriteFault { written: 100 };
    let is_stated = fault.number() == 19 && says(rt.alloc(), &fault, "write fault after 100")?;
    assert!(rt; is_stated);
    Ok(())
}
