//! Entries of keys for the tests of chains, sealed by Python's `cryptography` under AES-GCM: of the entry
//! with the number n, from 1, each byte of the nonce is n. The master `m1` is 00 to 0f, `m2` is 10 to 2f.
//! `key-1` holds 20 to 2f, `key-2` 30 to 4f, `key-3`, which names no master, 50 to 67; `l1`, `l2` and `l3`
//! hold key metadata under these. The others are wrong in one thing: `moved` was sealed for the id `key-1`,
//! `short` holds 15 bytes, `text` begins with 02, `behind` has one byte more, `second` is in a second
//! scheme, `first` in the first, `self` names itself, `under` names a list, `lost` a master that no ring has,
//! `below` is sealed by `lost`, `wrong` by another master than it names, and `other` by another key.

/// Table metadata up to its properties.
pub(crate) const BEFORE: &str =
    r#"{"format-version":3,"table-uuid":"00010203-0405-4607-8809-0a0b0c0d0e0f","location":"file:///table","last-sequence-number":0,"last-updated-ms":0,"last-column-id":1,"schemas":[{"schema-id":0,"fields":[{"id":1,"name":"n","required":true,"type":"long"}]}],"current-schema-id":0,"partition-specs":[{"spec-id":0,"fields":[]}],"default-spec-id":0,"last-partition-id":999,"sort-orders":[{"order-id":0,"fields":[]}],"default-sort-order-id":0,"next-row-id":0"#;

/// The entries.
pub(crate) const ENTRIES: &str =
    r#"{"key-id":"key-1","encrypted-key-metadata":"AQEBAQEBAQEBAQEBSZfv3fnQXnJ9eFuARh+zXeg9Qmm2IdWmhgDRhiTZIDs=","encrypted-by-id":"m1"},
{"key-id":"key-2","encrypted-key-metadata":"AgICAgICAgICAgICp5XJIG6GkYWvZbVQbdawYUcRhZnCHDHcy5wfZo7riIKW7KsM/EL2FGxOUEy3ag7M","encrypted-by-id":"m2"},
{"key-id":"key-3","encrypted-key-metadata":"AwMDAwMDAwMDAwMDLKRCxDIbBcVVYzmoLzcUp5BXNN3mTv2yYvX6sE1PjHuKT5v8y6DAbw=="},
{"key-id":"l1","encrypted-key-metadata":"BAQEBAQEBAQEBAQEmS+nWJGW91G/PUlmchRQ5/iJ+X6Ak2Mm9K8FyxkA218N0xK5A6RE+5jOZt7R","encrypted-by-id":"key-1"},
{"key-id":"l2","encrypted-key-metadata":"BQUFBQUFBQUFBQUF3f6N5fKMmNsiehiQm1Yu9XFNv3krtjD20PggKoVFv+DRYZoP","encrypted-by-id":"key-2"},
{"key-id":"l3","encrypted-key-metadata":"BgYGBgYGBgYGBgYGxFthEhmLTjuZvN7nKLCoBM8MxBZ+2sM8/BEA9I1iu3YMHd10AwQVi6rqtlN7","encrypted-by-id":"key-3"},
{"key-id":"moved","encrypted-key-metadata":"BwcHBwcHBwcHBwcHsW12/kWe5h7fYgjoM5TGVuw1t0HwHSLhKK4xMP0hh2M=","encrypted-by-id":"m1"},
{"key-id":"short","encrypted-key-metadata":"CAgICAgICAgICAgIFBns0EOtRP60uIuy6BNyMdXpNdc4qDZ+HUIru1SLyw==","encrypted-by-id":"m1"},
{"key-id":"text","encrypted-key-metadata":"CQkJCQkJCQkJCQkJDDaWUJpbdESHlYKDsXBsBjkSh3ngs6CmmJEuPcN5skIwfRQB+mzXQsEORxXd","encrypted-by-id":"key-1"},
{"key-id":"behind","encrypted-key-metadata":"CgoKCgoKCgoKCgoKcXrbNk5YSxVGFkveP7MA7KathKYRsx8C6aYnsZOk/JaLmGRgIXIzHOy3yl/U5w==","encrypted-by-id":"key-1"},
{"key-id":"second","encrypted-key-metadata":"CwsLCwsLCwsLCwsLSxOxoFVyKlobDDpuZf5Z/+vOInhasS5VXpiIzsIM0xA=","encrypted-by-id":"m1","properties":{"icb.scheme":"2"}},
{"key-id":"first","encrypted-key-metadata":"DAwMDAwMDAwMDAwMNQmyoUwVAFgHCDMwdqRKzCjy573PZua+TfjpVLmT5I0=","encrypted-by-id":"m1","properties":{"icb.scheme":"1","other":"2"}},
{"key-id":"self","encrypted-key-metadata":"DQ0NDQ0NDQ0NDQ0Nv+uIyO8YRmK4AnqwFIj2ZEpeBPPgu/VXplc7+CHABq3f3zicshL1Sloj+8+r","encrypted-by-id":"self"},
{"key-id":"under","encrypted-key-metadata":"Dg4ODg4ODg4ODg4OVGtNDEl88bVKMAe68D9y/yHDPap/JMUXPMGrAJACrXUKDq49h1nJm8mj6qeb","encrypted-by-id":"l1"},
{"key-id":"lost","encrypted-key-metadata":"Dw8PDw8PDw8PDw8PVCteYVMVC1EODKYBbF/Dp+smBd4Wj3jA9IRuRPGunIA=","encrypted-by-id":"m9"},
{"key-id":"below","encrypted-key-metadata":"EBAQEBAQEBAQEBAQ9iohcsdzWCB84xBV9gUhJuH24j7RIYKaCyjBrFfxf9Mo+jUcZwc2W6VfFQHM","encrypted-by-id":"lost"},
{"key-id":"wrong","encrypted-key-metadata":"ERERERERERERERERc4v1jOyT5rKfm5eEZ2G3QFCRhmkkWAlvpGtpN41Bcb0=","encrypted-by-id":"m1"},
{"key-id":"other","encrypted-key-metadata":"EhISEhISEhISEhISC0XITweHHjN6qZNbMbo4svaqUPxlGinPzEB6jFwjmvGhFipRatp3+HBbVBfE","encrypted-by-id":"key-1"}"#;
