pub use byte_tests::test::test_bytes;
