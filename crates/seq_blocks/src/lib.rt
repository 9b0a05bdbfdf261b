// The block tools of a sequence header: partition, segmentation, intra.
#![tactic(auto)]

ghost use Rattle.std.specs.Prelude.{◌≡◌};
ghost use Rattle.seq_blocks.specs.Blocks.{sb_code, aspect_ratio_log2, read_partition, seg_info_if, read_segmentation, filter_index, read_intra, read_blocks};

use getbits::{Place, Read, flag_if, get_flag};
use seg_info::{SegmentationDataSet, no_seg_info, parse_seg_info};
use seq_fields::small_if;

#[derive(Clone, Copy)]
pub struct Partition {
    pub sb128: u8,
    pub sdp: bool,
    pub ext_sdp: bool,
    pub ext_partitions: bool,
    pub uneven_4way_partitions: bool,
    pub max_pb_aspect_ratio_log2: u8,
}

#[derive(Clone, Copy)]
pub struct SeqSegmentation {
    pub ext: bool,
    pub info_present: bool,
    pub adaptive: bool,
    pub d: SegmentationDataSet,
}

#[derive(Clone, Copy)]
pub struct Intra {
    pub intra_dip: bool,
    pub intra_edge_filter: bool,
    pub mrls: bool,
    pub cfl: bool,
    pub cfl_ds_filter_index: u8,
    pub mhccp: bool,
    pub ibp: bool,
}

#[derive(Clone, Copy)]
pub struct Blocks {
    pub partition: Partition,
    pub segmentation: SeqSegmentation,
    pub intra: Intra,
}

fn sb_code(sb256: bool, sb128: bool) -> u8
    ensures { result ≡ sb_code sb256 sb128 }
{
    if sb256 {
        return 2;
    }
    if sb128 { 1 } else { 0 }
}

fn aspect_ratio_log2(limited: bool, two: bool) -> u8
    ensures { result ≡ aspect_ratio_log2 limited two }
{
    if limited {
        return if two { 2 } else { 1 };
    }
    3
}

fn read_partition(s: &[u8], p: Place, mono: bool, reduced: bool) -> Read<Partition>
    ensures { result ≡ read_partition mono reduced s.now p }
{
    let sb256 = get_flag(s, p);
    let sb128 = flag_if(s, sb256.next, !sb256.value);
    let sdp = flag_if(s, sb128.next, !mono);
    let ext_sdp = flag_if(s, sdp.next, sdp.value & !reduced);
    let ext_partitions = get_flag(s, ext_sdp.next);
    let uneven = flag_if(s, ext_partitions.next, ext_partitions.value);
    let limited = get_flag(s, uneven.next);
    let two = flag_if(s, limited.next, limited.value);
    let sb_code = sb_code(sb256.value, sb128.value);
    let aspect_ratio_log2 = aspect_ratio_log2(limited.value, two.value);
    Read {
        value: Partition {
            sb128: sb_code,
            sdp: sdp.value,
            ext_sdp: ext_sdp.value,
            ext_partitions: ext_partitions.value,
            uneven_4way_partitions: uneven.value,
            max_pb_aspect_ratio_log2: aspect_ratio_log2,
        },
        next: two.next,
    }
}

fn seg_info_if(s: &[u8], p: Place, ext: bool, cond: bool) -> Read<SegmentationDataSet>
    ensures { result ≡ seg_info_if cond s.now p ext }
{
    let seg = no_seg_info();
    if cond {
        return parse_seg_info(s, p, seg, ext);
    }
    Read {
        value: seg,
        next: p,
    }
}

fn read_segmentation(s: &[u8], p: Place) -> Read<SeqSegmentation>
    ensures { result ≡ read_segmentation s.now p }
{
    let ext = get_flag(s, p);
    let present = get_flag(s, ext.next);
    let adaptive = flag_if(s, present.next, present.value);
    let d = seg_info_if(s, adaptive.next, ext.value, present.value);
    let next = d.next;
    Read {
        value: SeqSegmentation {
            ext: ext.value,
            info_present: present.value,
            adaptive: adaptive.value,
            d: d.value,
        },
        next,
    }
}

fn filter_index(index: u8) -> u8
    ensures { result ≡ filter_index index }
{
    if index == 3 { 0 } else { index }
}

fn read_intra(s: &[u8], p: Place, mono: bool) -> Read<Intra>
    ensures { result ≡ read_intra mono s.now p }
{
    let dip = get_flag(s, p);
    let edge = get_flag(s, dip.next);
    let mrls = get_flag(s, edge.next);
    let cfl = get_flag(s, mrls.next);
    let index = small_if(s, cfl.next, 2, !mono);
    let mhccp = get_flag(s, index.next);
    let ibp = get_flag(s, mhccp.next);
    let filter_index = filter_index(index.value);
    Read {
        value: Intra {
            intra_dip: dip.value,
            intra_edge_filter: edge.value,
            mrls: mrls.value,
            cfl: cfl.value,
            cfl_ds_filter_index: filter_index,
            mhccp: mhccp.value,
            ibp: ibp.value,
        },
        next: ibp.next,
    }
}

pub fn read_blocks(s: &[u8], p: Place, mono: bool, reduced: bool) -> Read<Blocks>
    ensures { result ≡ read_blocks mono reduced s.now p }
{
    let partition = read_partition(s, p, mono, reduced);
    let segmentation = read_segmentation(s, partition.next);
    let intra = read_intra(s, segmentation.next, mono);
    let next = intra.next;
    Read {
        value: Blocks {
            partition: partition.value,
            segmentation: segmentation.value,
            intra: intra.value,
        },
        next,
    }
}
