// The constants of range lists, under their standard names.

// Range list entry kinds (DWARF 5, section 7.25 "Non-Contiguous Address Ranges").

pub(crate) const DW_RLE_end_of_list: u64 = 0x00;

pub(crate) const DW_RLE_base_addressx: u64 = 0x01;

pub(crate) const DW_RLE_startx_endx: u64 = 0x02;

pub(crate) const DW_RLE_startx_length: u64 = 0x03;

pub(crate) const DW_RLE_offset_pair: u64 = 0x04;

pub(crate) const DW_RLE_base_address: u64 = 0x05;

pub(crate) const DW_RLE_start_end: u64 = 0x06;

pub(crate) const DW_RLE_start_length: u64 = 0x07;

// The largest address, which marks a base address selection entry (DWARF 4, section 2.17.3 "Non-Contiguous Address Ranges").
pub(crate) const BASE_SELECTION: u64 = 0xffff_ffff_ffff_ffff;
