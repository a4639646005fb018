//! Growing texts, as they are written. Source: this project's own format, and git's names of objects.

/// The text with no object and no ref.
pub(crate) const EMPTY: &[u8] = b"gxstore 3\na\n\
00000000000000000262 00000000000000000244 \
adb75895df009d6af652e3e2686b8d561b10c7e4b0c7c84e20c13de012fb0597\n\
00000000000000000000 00000000000000000000 \
0000000000000000000000000000000000000000000000000000000000000000\n\
objects 0\n\
rows 0\n\n\
runs 0\n\
refs 0\n\
end\n";

/// The same with two segments more that bring nothing.
pub(crate) const THRICE: &[u8] = b"gxstore 3\na\n\
00000000000000000334 00000000000000000316 \
adb75895df009d6af652e3e2686b8d561b10c7e4b0c7c84e20c13de012fb0597\n\
00000000000000000298 00000000000000000280 \
adb75895df009d6af652e3e2686b8d561b10c7e4b0c7c84e20c13de012fb0597\n\
objects 0\n\
rows 0\n\n\
runs 0\n\
refs 0\n\
end\n\
objects 0\n\
rows 0\n\n\
runs 0\n\
refs 0\n\
end\n\
objects 0\n\
rows 0\n\n\
runs 0\n\
refs 0\n\
end\n";

/// A head that leads to no segment.
pub(crate) const HEAD: &[u8] = b"gxstore 3\nb\n\
00000000000000000000 00000000000000000000 \
0000000000000000000000000000000000000000000000000000000000000000\n\
00000000000000000000 00000000000000000000 \
0000000000000000000000000000000000000000000000000000000000000000\n";

/// Two segments: the second has refs of its own.
pub(crate) const TWO: &[u8] = b"gxstore 3\nb\n\
00000000000000000665 00000000000000000519 \
21a8e476d00c87e476bb72db3ed4bf7f8134cbe0f7c06bd0c0bf5f693f32a8e7\n\
00000000000000001215 00000000000000000878 \
6b8e20e0a34e864fcf0884bc41dde90ce0a97e42bd12adbea72afec6651d5668\n\
objects 3\n\
blob 3 43dd47ea691c90a5fa7827892c70241913351963\n\
one\n\
blob 0 e69de29bb2d1d6434b8b29ae775ad8c2e48c5391\n\
\n\
blob 9 7d965d16da0fbd14b9d808e61893d72af9831ddc\n\
two\nlines\n\
rows 3\n\
\x43\xdd\x47\xea\x69\x1c\x90\xa5\xfa\x78\x27\x89\x2c\x70\x24\x19\x13\x35\x19\x63\
\0\0\0\0\0\0\0\xec\
\x7d\x96\x5d\x16\xda\x0f\xbd\x14\xb9\xd8\x08\xe6\x18\x93\xd7\x2a\xf9\x83\x1d\xdc\
\0\0\0\0\0\0\x01\x51\
\xe6\x9d\xe2\x9b\xb2\xd1\xd6\x43\x4b\x8b\x29\xae\x77\x5a\xd8\xc2\xe4\x8c\x53\x91\
\0\0\0\0\0\0\x01\x20\
\xf4\xaf\x3e\xf6\x97\xe2\xab\x9b\x1a\x16\x75\xc3\x3c\x87\x77\x93\
\x26\xe4\x23\xbf\x2f\x2f\x12\xd0\x21\x41\x28\xfd\xbe\x52\x60\x7b\n\
runs 1\n\
402 3 3554f6df209e8048067067b15ca1d035e496f5cbdfe33d8d122b990531d08151\n\
refs 1\n\
43dd47ea691c90a5fa7827892c70241913351963 refs/heads/main\n\
end\n\
objects 2\n\
blob 5 1d19714ffbc272ba0da6eb419d66123c20527174\n\
three\n\
blob 4 4557d91f7b5d7fd77df2ac7e7478443920cdafd1\n\
long\n\
rows 2\n\
\x1d\x19\x71\x4f\xfb\xc2\x72\xba\x0d\xa6\xeb\x41\x9d\x66\x12\x3c\x20\x52\x71\x74\
\0\0\0\0\0\0\x02\xa3\
\x45\x57\xd9\x1f\x7b\x5d\x7f\xd7\x7d\xf2\xac\x7e\x74\x78\x44\x39\x20\xcd\xaf\xd1\
\0\0\0\0\0\0\x02\xd9\
\x04\x28\x77\xc9\x31\x8e\xec\xd2\x96\xf1\xd9\x09\x81\x05\xda\xfd\
\xbb\x71\x9d\xf5\x84\xf9\x34\xfd\x17\x15\x46\x21\x1b\x6f\xb5\xad\n\
runs 2\n\
402 3 3554f6df209e8048067067b15ca1d035e496f5cbdfe33d8d122b990531d08151\n\
789 2 ea57314c49929810e1abfebe2b6ee848abd77698a4b474982bc49bde6d7e23b5\n\
refs 3\n\
1d19714ffbc272ba0da6eb419d66123c20527174 refs/heads/main\n\
e69de29bb2d1d6434b8b29ae775ad8c2e48c5391 refs/remotes/origin/HEAD\n\
43dd47ea691c90a5fa7827892c70241913351963 refs/tags/v1\n\
end\n";

/// Two segments that bring the same blob.
pub(crate) const SAME: &[u8] = b"gxstore 3\nb\n\
00000000000000000445 00000000000000000356 \
4672b01a6cb8c7d0c8a98853e6a9c6a0943448f674271f92254e1fae69c9c70f\n\
00000000000000000735 00000000000000000575 \
0389f48a1c17ddf218bed1ede5f3bdac9222cc8ef5146849b5c3e1ff00006cc3\n\
objects 1\n\
blob 3 43dd47ea691c90a5fa7827892c70241913351963\n\
one\n\
rows 1\n\
\x43\xdd\x47\xea\x69\x1c\x90\xa5\xfa\x78\x27\x89\x2c\x70\x24\x19\x13\x35\x19\x63\
\0\0\0\0\0\0\0\xec\
\xda\xf1\xa2\x3e\xa8\xa1\x9d\x1c\xcf\x5c\xf9\x6c\xba\x11\x8b\xd2\
\x7d\x53\xc3\xa6\xec\xda\xb9\xe9\xab\x2c\x4e\x43\xf2\x08\x74\x27\n\
runs 1\n\
295 1 876825292a1d0bcc7c79b427d29d079a573a8dd273d6d1e5b535dd1bae3fa451\n\
refs 0\n\
end\n\
objects 1\n\
blob 3 43dd47ea691c90a5fa7827892c70241913351963\n\
one\n\
rows 1\n\
\x43\xdd\x47\xea\x69\x1c\x90\xa5\xfa\x78\x27\x89\x2c\x70\x24\x19\x13\x35\x19\x63\
\0\0\0\0\0\0\x01\xc7\
\x44\x2b\x79\xb1\xbf\x36\xf4\x31\xbb\x6a\x2e\x0f\xb0\x19\x94\xe3\
\x2e\x6d\x1f\x00\x1e\xb9\xde\x67\x38\xab\x42\xc8\x84\xfd\xdd\xbe\n\
runs 2\n\
295 1 876825292a1d0bcc7c79b427d29d079a573a8dd273d6d1e5b535dd1bae3fa451\n\
514 1 84048d36d7de1f02bb6d4ad30f02c432a3a09b12a3b50414488d69b533423806\n\
refs 0\n\
end\n";

/// Two segments of blobs of whose names some begin alike.
pub(crate) const ALIKE: &[u8] = b"gxstore 3\nb\n\
00000000000000000604 00000000000000000515 \
63a23ca0e3c51524be65247efe1933a5b46c8ad7bc83f464b8719ad52771785b\n\
00000000000000000975 00000000000000000815 \
8026aaf2e150d14533b88c56475d2925bb9969c2ec830e810a0a7f8021742eed\n\
objects 3\n\
blob 2 e3f1e9b791c84fce95fe992dc246e9e2286c84ed\n\
80\n\
blob 3 e3f17d0dac2b894f80861f8cbf87614f22bae050\n\
816\n\
blob 3 55f04f2ae2c5d17c6b2a2616018b96f869677221\n\
365\n\
rows 3\n\
\x55\xf0\x4f\x2a\xe2\xc5\xd1\x7c\x6b\x2a\x26\x16\x01\x8b\x96\xf8\x69\x67\x72\x21\
\0\0\0\0\0\0\x01\x53\
\xe3\xf1\x7d\x0d\xac\x2b\x89\x4f\x80\x86\x1f\x8c\xbf\x87\x61\x4f\x22\xba\xe0\x50\
\0\0\0\0\0\0\x01\x1f\
\xe3\xf1\xe9\xb7\x91\xc8\x4f\xce\x95\xfe\x99\x2d\xc2\x46\xe9\xe2\x28\x6c\x84\xed\
\0\0\0\0\0\0\0\xec\
\xfc\x1e\xe8\x74\x25\x2a\x67\xdf\x48\xce\x07\xa8\x4d\x91\x3e\x0a\
\xb0\x87\x18\x0e\xd5\x19\x72\xb9\x28\x89\x13\xd4\x3d\x24\x31\xfa\n\
runs 1\n\
398 3 b049834649ed2521f35deab73641b02c24bf59c3522e1c8fb96be1e5692439ef\n\
refs 0\n\
end\n\
objects 2\n\
blob 4 55f084bf950e82c37721dd2e2bf90cf2f014367a\n\
1599\n\
blob 3 43dd47ea691c90a5fa7827892c70241913351963\n\
one\n\
rows 2\n\
\x43\xdd\x47\xea\x69\x1c\x90\xa5\xfa\x78\x27\x89\x2c\x70\x24\x19\x13\x35\x19\x63\
\0\0\0\0\0\0\x02\x9b\
\x55\xf0\x84\xbf\x95\x0e\x82\xc3\x77\x21\xdd\x2e\x2b\xf9\x0c\xf2\xf0\x14\x36\x7a\
\0\0\0\0\0\0\x02\x66\
\x96\xc5\x9e\x0f\xb9\x6f\x92\x91\x25\xf7\xd7\x7e\xf5\xc2\xc9\xb9\
\x90\x77\x73\xa8\x9a\x37\x4f\xf0\x57\x48\xbb\x7a\x03\xe5\x42\xbd\n\
runs 2\n\
398 3 b049834649ed2521f35deab73641b02c24bf59c3522e1c8fb96be1e5692439ef\n\
726 2 cda5be9088f0e047063d4310b92e0b773df0cb1694d991f207b6003f5585bc02\n\
refs 0\n\
end\n";

/// What stands before a blob of 200,000 bytes in place of the last one of two segments.
pub(crate) const LONG_FRONT: &[u8] = b"gxstore 3\nb\n\
00000000000000000665 00000000000000000519 \
21a8e476d00c87e476bb72db3ed4bf7f8134cbe0f7c06bd0c0bf5f693f32a8e7\n\
00000000000000201219 00000000000000200879 \
873e88584dddd4be70d8f87388c6222215effafaf73b2cd7571f0651d87b7061\n\
objects 3\n\
blob 3 43dd47ea691c90a5fa7827892c70241913351963\n\
one\n\
blob 0 e69de29bb2d1d6434b8b29ae775ad8c2e48c5391\n\
\n\
blob 9 7d965d16da0fbd14b9d808e61893d72af9831ddc\n\
two\nlines\n\
rows 3\n\
\x43\xdd\x47\xea\x69\x1c\x90\xa5\xfa\x78\x27\x89\x2c\x70\x24\x19\x13\x35\x19\x63\
\0\0\0\0\0\0\0\xec\
\x7d\x96\x5d\x16\xda\x0f\xbd\x14\xb9\xd8\x08\xe6\x18\x93\xd7\x2a\xf9\x83\x1d\xdc\
\0\0\0\0\0\0\x01\x51\
\xe6\x9d\xe2\x9b\xb2\xd1\xd6\x43\x4b\x8b\x29\xae\x77\x5a\xd8\xc2\xe4\x8c\x53\x91\
\0\0\0\0\0\0\x01\x20\
\xf4\xaf\x3e\xf6\x97\xe2\xab\x9b\x1a\x16\x75\xc3\x3c\x87\x77\x93\
\x26\xe4\x23\xbf\x2f\x2f\x12\xd0\x21\x41\x28\xfd\xbe\x52\x60\x7b\n\
runs 1\n\
402 3 3554f6df209e8048067067b15ca1d035e496f5cbdfe33d8d122b990531d08151\n\
refs 1\n\
43dd47ea691c90a5fa7827892c70241913351963 refs/heads/main\n\
end\n\
objects 2\n\
blob 5 1d19714ffbc272ba0da6eb419d66123c20527174\n\
three\n\
blob 200000 a213aa40f11f7af2a9c9e973df599278413060bb\n";

/// What stands behind it.
pub(crate) const LONG_BEHIND: &[u8] = b"\n\
rows 2\n\
\x1d\x19\x71\x4f\xfb\xc2\x72\xba\x0d\xa6\xeb\x41\x9d\x66\x12\x3c\x20\x52\x71\x74\
\0\0\0\0\0\0\x02\xa3\
\xa2\x13\xaa\x40\xf1\x1f\x7a\xf2\xa9\xc9\xe9\x73\xdf\x59\x92\x78\x41\x30\x60\xbb\
\0\0\0\0\0\0\x02\xd9\
\xe2\x9f\x2c\x72\x63\x5e\x83\x34\xd5\xdf\x53\x61\xb4\x80\xe6\x6a\
\xe9\x2f\x17\x30\x43\xa3\xa1\x04\x10\x35\x01\xf6\x0c\x3f\x4f\x91\n\
runs 2\n\
402 3 3554f6df209e8048067067b15ca1d035e496f5cbdfe33d8d122b990531d08151\n\
200790 2 31ae972a2c33f25adac77ecdb01035a3deaea6cf17dafa2726719da7e3d641a1\n\
refs 3\n\
1d19714ffbc272ba0da6eb419d66123c20527174 refs/heads/main\n\
e69de29bb2d1d6434b8b29ae775ad8c2e48c5391 refs/remotes/origin/HEAD\n\
43dd47ea691c90a5fa7827892c70241913351963 refs/tags/v1\n\
end\n";
