//! For each byte the register that it leaves behind so many bytes, its own among them. The register is linear: what a
//! byte leaves is the sum of what its bits leave.

/// The table of what a byte's bits leave, the lowest first: a bit puts behind the entries so far the same again, each
/// with what the bit leaves added.
macro_rules! table_of_bits {
    ([$($entry:expr),*]) => { [$($entry),*] };
    ([$($entry:expr),*] $bit:literal $($higher:literal)*) => {
        table_of_bits!([$($entry,)* $($entry ^ $bit),*] $($higher)*)
    };
}

pub static AFTER_1: [u32; 256] =
    table_of_bits!([0] 0xf26b_8303 0xe13b_70f7 0xc79a_971f 0x8ad9_58cf 0x105e_c76f 0x20bd_8ede 0x417b_1dbc 0x82f6_3b78);

pub static AFTER_2: [u32; 256] =
    table_of_bits!([0] 0x13a2_9877 0x2745_30ee 0x4e8a_61dc 0x9d14_c3b8 0x3fc5_f181 0x7f8b_e302 0xff17_c604 0xfbc3_faf9);

pub static AFTER_3: [u32; 256] =
    table_of_bits!([0] 0xa541_927e 0x4f6f_520d 0x9ede_a41a 0x3851_3ec5 0x70a2_7d8a 0xe144_fb14 0xc765_80d9 0x8b27_7743);

pub static AFTER_4: [u32; 256] =
    table_of_bits!([0] 0xdd45_aab8 0xbf67_2381 0x7b22_31f3 0xf644_63e6 0xe964_b13d 0xd725_148b 0xaba6_5fe7 0x52a0_c93f);

pub static AFTER_5: [u32; 256] =
    table_of_bits!([0] 0x3811_6fac 0x7022_df58 0xe045_beb0 0xc567_0b91 0x8f22_61d3 0x1ba8_b557 0x3751_6aae 0x6ea2_d55c);

pub static AFTER_6: [u32; 256] =
    table_of_bits!([0] 0xef30_6b19 0xdb8c_a0c3 0xb2f5_3777 0x6006_181f 0xc00c_303e 0x85f4_168d 0x0e04_5beb 0x1c08_b7d6);

pub static AFTER_7: [u32; 256] =
    table_of_bits!([0] 0x6803_2cc8 0xd006_5990 0xa5e0_c5d1 0x4e2d_fd53 0x9c5b_faa6 0x3d5b_83bd 0x7ab7_077a 0xf56e_0ef4);

pub static AFTER_8: [u32; 256] =
    table_of_bits!([0] 0x493c_7d27 0x9278_fa4e 0x211d_826d 0x423b_04da 0x8476_09b4 0x0d00_6599 0x1a00_cb32 0x3401_9664);

pub static AFTER_9: [u32; 256] =
    table_of_bits!([0] 0xf43e_d648 0xed91_da61 0xdecf_c233 0xb873_f297 0x750b_93df 0xea17_27be 0xd1c2_398d 0xa668_05eb);

pub static AFTER_10: [u32; 256] =
    table_of_bits!([0] 0xcb56_7ba5 0x9340_81bb 0x236d_7587 0x46da_eb0e 0x8db5_d61c 0x1e87_dac9 0x3d0f_b592 0x7a1f_6b24);

pub static AFTER_11: [u32; 256] =
    table_of_bits!([0] 0x9771_f7c1 0x2b0f_9973 0x561f_32e6 0xac3e_65cc 0x5d90_bd69 0xbb21_7ad2 0x73ae_8355 0xe75d_06aa);

pub static AFTER_12: [u32; 256] =
    table_of_bits!([0] 0x3171_d430 0x62e3_a860 0xc5c7_50c0 0x8e62_d771 0x1929_d813 0x3253_b026 0x64a7_604c 0xc94e_c098);

pub static AFTER_13: [u32; 256] =
    table_of_bits!([0] 0x30d2_3865 0x61a4_70ca 0xc348_e194 0x837d_b5d9 0x0317_1d43 0x062e_3a86 0x0c5c_750c 0x18b8_ea18);

pub static AFTER_14: [u32; 256] =
    table_of_bits!([0] 0x5407_5546 0xa80e_aa8c 0x55f1_23e9 0xabe2_47d2 0x5228_f955 0xa451_f2aa 0x4d4f_93a5 0x9a9f_274a);

pub static AFTER_15: [u32; 256] =
    table_of_bits!([0] 0x678e_fd01 0xcf1d_fa02 0x9bd7_82f5 0x3243_731b 0x6486_e636 0xc90d_cc6c 0x97f7_ee29 0x2a03_aaa3);

pub static AFTER_16: [u32; 256] =
    table_of_bits!([0] 0xf20c_0dfe 0xe1f4_6d0d 0xc604_aceb 0x89e5_2f27 0x1626_28bf 0x2c4c_517e 0x5898_a2fc 0xb131_45f8);
