//! Tests of numbers that display as their texts.

use crate::support::alphabets::{Letters, symbols, texts};
use base62::{encode_fmt, encode_fmt_alt, encode_fmt_with};
use std::alloc::{AllocError, Global};
use std::fmt;
use std::process::Abort;
use std::test::Fail;

fn assert_displays(rt: &impl Abort, displayed: String, text: &[u8]) {
    assert!(rt;
        displayed.as_bytes() == text,
        "{displayed}, and not {text:?}"
    );
}

#[test]
fn test_fmt_basics(rt: HostRuntime) -> Result<(), Fail> {
    assert_displays(
        &rt,
        format!(in rt.alloc(); "{}", encode_fmt(1337_u32))?,
        b"LZ",
    );
    assert_displays(&rt, format!(in rt.alloc(); "{}", encode_fmt(0_u32))?, b"0");
    for (number, text) in &texts(rt.alloc(), Letters::Standard)? {
        let displayed = format!(in rt.alloc(); "{}", encode_fmt(*number))?;
        assert_displays(&rt, displayed, text.as_slice());
    }
    Ok(())
}

#[test]
fn test_fmt_alternative_basics(rt: HostRuntime) -> Result<(), Fail> {
    assert_displays(
        &rt,
        format!(in rt.alloc(); "{}", encode_fmt_alt(1337_u32))?,
        b"lz",
    );
    assert_displays(
        &rt,
        format!(in rt.alloc(); "{}", encode_fmt_alt(0_u32))?,
        b"0",
    );
    for (number, text) in &texts(rt.alloc(), Letters::Alternative)? {
        let displayed = format!(in rt.alloc(); "{}", encode_fmt_alt(*number))?;
        assert_displays(&rt, displayed, text.as_slice());
    }
    Ok(())
}

#[test]
fn test_fmt_padding(rt: HostRuntime) -> Result<(), Fail> {
    for (number, text) in [
        (1337_u32, b"00000000000000000000LZ"),
        (0, b"0000000000000000000000"),
    ] {
        let displayed = format!(in rt.alloc(); "{:0>22}", encode_fmt(number))?;
        assert_displays(&rt, displayed, text);
    }
    Ok(())
}

#[test]
fn test_fmt_alternative_padding(rt: HostRuntime) -> Result<(), Fail> {
    for (number, text) in [
        (1337_u32, b"00000000000000000000lz"),
        (0, b"0000000000000000000000"),
    ] {
        let displayed = format!(in rt.alloc(); "{:0>22}", encode_fmt_alt(number))?;
        assert_displays(&rt, displayed, text);
    }
    Ok(())
}

fn aligned(alloc: Global) -> Result<[String; 3], AllocError> {
    Ok([
        format!(in alloc; "{:<5}", encode_fmt(1337_u32))?,
        format!(in alloc; "{:>5}", encode_fmt(1337_u32))?,
        format!(in alloc; "{:^5}", encode_fmt(1337_u32))?,
    ])
}

fn unaligned(alloc: Global) -> Result<[String; 3], AllocError> {
    Ok([
        format!(in alloc; "{:5}", encode_fmt(1337_u32))?,
        format!(in alloc; "{:1}", encode_fmt(1337_u32))?,
        format!(in alloc; "{:2}", encode_fmt(1337_u32))?,
    ])
}

// A width counts characters, and the last fill has two bytes.
fn filled(alloc: Global) -> Result<[String; 3], AllocError> {
    Ok([
        format!(in alloc; "{:*^7}", encode_fmt(1337_u32))?,
        format!(in alloc; "{:*<4}", encode_fmt(1337_u32))?,
        format!(in alloc; "{:é>4}", encode_fmt(1337_u32))?,
    ])
}

fn over_symbols(alloc: Global) -> Result<[String; 2], AllocError> {
    Ok([
        format!(in alloc; "{:>5}", encode_fmt_with(&symbols(), 1337_u32))?,
        format!(in alloc; "{:*^5}", encode_fmt_with(&symbols(), 1337_u32))?,
    ])
}

fn assert_texts(rt: &impl Abort, texts: &[String], wanted: &[&str]) {
    assert!(rt; texts.len() == wanted.len());
    for (text, wanted) in texts.iter().zip(wanted) {
        assert!(rt; text.as_str() == *wanted, "{text}, and not {wanted}");
    }
}

#[test]
fn test_fmt_alignment(rt: HostRuntime) -> Result<(), Fail> {
    assert_texts(&rt, &aligned(rt.alloc())?, &["LZ   ", "   LZ", " LZ  "]);
    assert_texts(&rt, &unaligned(rt.alloc())?, &["LZ   ", "LZ", "LZ"]);
    assert_texts(&rt, &filled(rt.alloc())?, &["**LZ***", "LZ**", "ééLZ"]);
    assert_texts(&rt, &over_symbols(rt.alloc())?, &["   6D", "*6D**"]);
    Ok(())
}

#[test]
fn test_fmt_with_prefix(rt: HostRuntime) -> Result<(), Fail> {
    let standard = format!(in rt.alloc(); "base62: {}", encode_fmt(1337_u32))?;
    assert_eq!(rt; standard.as_str(), "base62: LZ");
    let alternative = format!(in rt.alloc(); "base62: {}", encode_fmt_alt(1337_u32))?;
    assert_eq!(rt; alternative.as_str(), "base62: lz");
    Ok(())
}

fn cut_texts<T: fmt::Display>(alloc: Global, displayed: &T) -> Result<[String; 4], AllocError> {
    Ok([
        format!(in alloc; "{displayed:.3}")?,
        format!(in alloc; "{displayed:>5.2}")?,
        format!(in alloc; "{displayed:.0}")?,
        format!(in alloc; "{displayed:*^3.0}")?,
    ])
}

// No clause covers a precision. It truncates the text, which is then padded.
#[test]
fn precision(rt: HostRuntime) -> Result<(), Fail> {
    let number = 1234567890_u64;
    let standard = cut_texts(rt.alloc(), &encode_fmt(number))?;
    assert_texts(&rt, &standard, &["1LY", "   1L", "", "***"]);
    let alternative = cut_texts(rt.alloc(), &encode_fmt_alt(number))?;
    assert_texts(&rt, &alternative, &["1ly", "   1l", "", "***"]);
    let with = cut_texts(rt.alloc(), &encode_fmt_with(&symbols(), number))?;
    assert_texts(&rt, &with, &["\"6C", "   \"6", "", "***"]);
    Ok(())
}
