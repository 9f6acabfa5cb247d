//! Inflates or deflates byte strings, for `compare/zlib`.
//!
//! `hdr_frames inflate LIMIT` and `hdr_frames deflate` read frames: a length in four bytes, from the lowest, and as many bytes. For
//! each they write a frame, after a byte that is 0 for success. `hdr_frames time COUNT` reads one stream, inflates it COUNT
//! times, and prints the nanoseconds.
#![tactic(auto)]

use anyhow::{Result, bail};
use byteorder::{ByteOrder, LittleEndian};
use hdr_zlib::{CompressionLevel, deflate, inflate};
use std::alloc::Global;
use std::env;
use std::io::{Read, Write};
use std::time::Instant;

/// What is done with a frame.
#[derive(Clone, Copy)]
enum Mode {
    Inflate(usize),
    Deflate,
}

/// Appends a frame, or one of status 1 without bytes.
fn push_frame(output: &mut Vec<u8>, bytes: Option<&[u8]>) -> Result<()> {
    output.push(u8::from(bytes.is_none()))?;
    let bytes = bytes.unwrap_or(&[]);
    let len = u32::try_from(bytes.len()).unwrap_or(0);
    output.extend_from_slice(&len.to_le_bytes())?;
    output.extend_from_slice(bytes)?;
    Ok(())
}

/// Appends the frame of one input.
fn run_frame(alloc: Global, output: &mut Vec<u8>, bytes: &[u8], mode: Mode) -> Result<()> {
    match mode {
        Mode::Deflate => {
            let stream = deflate(alloc, bytes, CompressionLevel::Huffman)?;
            push_frame(output, Some(stream.as_slice()))
        }
        Mode::Inflate(limit) => match inflate(alloc, bytes, limit) {
            Ok(data) => push_frame(output, Some(data.as_slice())),
            Err(_) => push_frame(output, None),
        },
    }
}

/// Returns the frames of all inputs.
fn run_frames(alloc: Global, input: &[u8], mode: Mode) -> Result<Vec<u8>> {
    let mut output = Vec::new(alloc);
    let mut rest = input;
    while let Some((len, bytes)) = rest.split_at_checked(4) {
        let len = LittleEndian::read_u32(len) as usize;
        let Some((frame, others)) = bytes.split_at_checked(len) else {
            bail!("an incomplete frame");
        };
        run_frame(alloc, &mut output, frame, mode)?;
        rest = others;
    }
    Ok(output)
}

/// Inflates a stream `count` times, and prints the time.
fn time(rt: &HostRuntime, input: &[u8], count: u64) -> Result<()> {
    let start = Instant::now(rt)?;
    let mut total = 0u64;
    for _ in 0..count {
        let data = inflate(rt.alloc(), input, 1 << 30)?;
        total = total.wrapping_add(data.len() as u64);
    }
    let nanos = start.elapsed(rt)?.as_nanos();
    println!(rt; "{total} bytes in {nanos} ns")?;
    Ok(())
}

fn main(rt: HostRuntime) -> Result<()> {
    let mut name = String::new(rt.alloc());
    let mut number = 0u64;
    for (index, argument) in env::args(&rt)?.enumerate() {
        match index {
            1 => name = argument,
            2 => number = argument.as_str().parse().unwrap_or(0),
            _ => {}
        }
    }
    let mut input = Vec::new(rt.alloc());
    rt.stdin().read_to_end(&mut input)?;
    let mode = match name.as_str() {
        "time" => return time(&rt, &input, number),
        "inflate" => Mode::Inflate(number as usize),
        "deflate" => Mode::Deflate,
        _ => bail!("usage: hdr_frames inflate LIMIT | deflate | time COUNT"),
    };
    let output = run_frames(rt.alloc(), &input, mode)?;
    rt.stdout().write_all(&output)?;
    Ok(())
}
