//! Entries of keys for the tests of rotations, sealed by Python's `cryptography` under AES-GCM: of the
//! entry with the number n, from 1, each byte of the nonce is n. The master `m1` is 00 to 0f, `m2` is 10 to
//! 2f, `m3` is 30 to 47. `key-1` holds 20 to 2f, `key-2`, which names no master, 30 to 4f, and `key-3`, which
//! another master sealed, 50 to 67; `l1` and `l2` hold key metadata under the first two. The others don't
//! open: `wrong` was sealed by another master than it names, `lost` names a master that no keyring has, and
//! `self` names itself, so that it seals no key-encryption key.

/// Table metadata up to its properties.
pub(crate) const BEFORE: &str =
    r#"{"format-version":3,"table-uuid":"00010203-0405-4607-8809-0a0b0c0d0e0f","location":"file:///table","last-sequence-number":0,"last-updated-ms":4,"last-column-id":1,"schemas":[{"fields":[{"id":1,"name":"n","required":true,"type":"long"}],"schema-id":0}],"current-schema-id":0,"partition-specs":[{"fields":[],"spec-id":0}],"default-spec-id":0,"last-partition-id":999,"sort-orders":[{"fields":[],"order-id":0}],"default-sort-order-id":0,"next-row-id":0,"unknown":{"b":[1,{"a":null}]}"#;

/// The entries of a table.
pub(crate) const TABLE: &str =
    r#"{"encrypted-by-id":"m1","encrypted-key-metadata":"AQEBAQEBAQEBAQEBSZfv3fnQXnJ9eFuARh+zXeg9Qmm2IdWmhgDRhiTZIDs=","key-id":"key-1","properties":{"a":"1","icb.scheme":"1","z":"2"}},
{"encrypted-by-id":"key-1","encrypted-key-metadata":"AgICAgICAgICAgICccDnJprybjYWfLQ9mq4PW40Hx+f5YQtuZzF50lYCGD2iGWzNEFPnxaQmLG/u","key-id":"l1","properties":{"x":"y"}},
{"encrypted-key-metadata":"AwMDAwMDAwMDAwMDTMQipFJ7ZaU1A1nIT1d0x7B3FP3Gbt2SW9pNxe5tjynGJvYYtfCqeZqHk4Nd0Q7h","key-id":"key-2"},
{"encrypted-by-id":"key-2","encrypted-key-metadata":"BAQEBAQEBAQEBAQE3VT7YRR86SZ62j3Cra7wnajZAwk4MQPqk8enX4L1QFBlrFWN","key-id":"l2"},
{"encrypted-by-id":"m2","encrypted-key-metadata":"BQUFBQUFBQUFBQUFsK4lAo9ubd87EP8AC6Mm66kuhgfnQHYkq96BANb9kX8NakG/lUA6vQ==","key-id":"key-3"}"#;

/// An entry whose master no keyring has.
pub(crate) const LOST: &str =
    r#"{"encrypted-by-id":"m8","encrypted-key-metadata":"CAgICAgICAgICAgIpZi8djqS/IQbkjnG33LH5gZh6ByfaNeUUZZJnnqPGuI=","key-id":"lost"}"#;

/// An entry that was sealed by another master than it names.
pub(crate) const WRONG: &str =
    r#"{"encrypted-by-id":"m1","encrypted-key-metadata":"BgYGBgYGBgYGBgYG8DgSpiBiGqYfrAhhO8UyTYTJbG8PTFIwrltPY/Z/yR4=","key-id":"wrong"}"#;

/// An entry that names itself.
pub(crate) const SELF: &str =
    r#"{"encrypted-by-id":"self","encrypted-key-metadata":"CQkJCQkJCQkJCQkJHFZfGEgOWO5NkQXVXH/BBfh4jNSNfK/HZctync/+QLM=","key-id":"self"}"#;

/// The table's entries sealed again by `m3`, with the nonces 00 to 0b, 0c to 17 and 18 to 23: Python's.
pub(crate) const SEALED: &str =
    "key-1 m3 000102030405060708090a0bd9998adfc5969ca4d6f07de5c25074a4381c1322ba2a48a734499127a15aefe4 a=1 icb.scheme=1 z=2
l1 key-1 02020202020202020202020271c0e7269af26e36167cb43d9aae0f5b8d07c7e7f9610b6e673179d25602183da2196ccd1053e7c5a4262c6fee x=y
key-2 m3 0c0d0e0f10111213141516170b5b1d0f48514364785ac0f341656c9d4eec9ee7f7827789b5699e4b849bf6021cfb013af7b81079b180099194996873
l2 key-2 040404040404040404040404dd54fb61147ce9267ada3dc2adaef09da8d90309383103ea93c7a75f82f5405065ac558d
key-3 m3 18191a1b1c1d1e1f202122237c41f8f721704e33e95675f93fd02ea758d3953845f5394b4026b225cf3aab3771d507d320c6f1fa";
