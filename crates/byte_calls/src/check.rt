pub use byte_checks::check::check_bytes;
