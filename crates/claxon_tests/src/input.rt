//! Tests of bytes, bits and CRCs, over readers that end early and fail.
mod bits;
mod bytes;
