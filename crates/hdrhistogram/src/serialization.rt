//! Histograms as bytes and as lines: the V2 encoding of HdrHistogram, uncompressed, and interval logs.

mod class_decoder;
pub mod deserializer;
mod errors;
mod fields;
mod header;
pub mod interval_log;
mod payload;
mod payload_decoder;
mod serializer;
mod streams;
pub mod v2_serializer;
mod varint;
mod zig_zag;

pub use class_decoder::{RecordedBounds, RecordedClass};
pub use deserializer::Deserializer;
pub use errors::{CountNotSerializable, DeserializeError, FieldDecodeError, V2SerializeError};
pub use serializer::Serializer;
pub use v2_serializer::V2Serializer;
