// The first fields of a sequence header: level and format, layers, frame size and crop window, dependencies.
#![tactic(auto)]

ghost use Rattle.std.specs.Prelude.{◌≡◌, ◌+◌, ◌-◌, ◌^◌, ◌<◌, ◌≤◌};
ghost use Rattle.getbits.specs.Chain.{pick};
ghost use Rattle.seq_picture.specs.Level.{read_level, layout_of, ss_hor, ss_ver, hbd_of, read_format};
ghost use Rattle.seq_picture.specs.Picture.{read_layers, read_length, read_frame_size, read_crop, skip_models, layer, read_layer_list, read_dependencies, read_picture};

use codes::{get_vlc, vlc_if};
use getbits::{Place, Read, bits_if, flag_if, get_flag, read_bits};
use seq_fields::{PixelLayout, get_small, small_if};

#[derive(Clone, Copy)]
pub struct Level {
    pub reduced_still_picture_header: bool,
    pub level: u8,
    pub tier: u8,
}

#[derive(Clone, Copy)]
pub struct LevelRead {
    pub value: Level,
    pub layout_idx: u32,
    pub next: Place,
}

#[derive(Clone, Copy)]
pub struct Format {
    pub layout: PixelLayout,
    pub ss_hor: u8,
    pub ss_ver: u8,
    pub hbd: u8,
}

#[derive(Clone, Copy)]
pub struct FormatRead {
    pub value: Format,
    pub depth_idx: u32,
    pub next: Place,
}

#[derive(Clone, Copy)]
pub struct Layers {
    pub lcr_id: u8,
    pub still_picture: bool,
    pub max_tlayer_id: u8,
    pub max_mlayer_id: u8,
    pub monotonic: bool,
}

#[derive(Clone, Copy)]
pub struct FrameSize {
    pub width_n_bits: u8,
    pub height_n_bits: u8,
    pub max_width: i32,
    pub max_height: i32,
}

#[derive(Clone, Copy)]
pub struct CropInfo {
    pub enabled: bool,
    pub left: u32,
    pub right: u32,
    pub top: u32,
    pub bottom: u32,
}

#[derive(Clone, Copy)]
struct LayerList {
    present: bool,
    dependencies: [u8; 8],
    next: Place,
}

#[derive(Clone, Copy)]
pub struct Dependencies {
    pub tlayer_dependency_present: bool,
    pub mlayer_dependency_present: bool,
    pub tlayer_dependencies: [u8; 8],
    pub mlayer_dependencies: [u8; 8],
}

#[derive(Clone, Copy)]
pub struct Picture {
    pub layers: Layers,
    pub size: FrameSize,
    pub crop: CropInfo,
    pub dependencies: Dependencies,
}

pub fn read_level(s: &[u8], p: Place) -> LevelRead
    ensures { result ≡ read_level s.now p }
{
    let reduced = get_flag(s, p);
    let level = get_small(s, reduced.next, 5);
    let tier = small_if(s, level.next, 1, (4 <= level.value) & !reduced.value);
    let index = get_vlc(s, tier.next);
    LevelRead {
        value: Level {
            reduced_still_picture_header: reduced.value,
            level: level.value,
            tier: tier.value,
        },
        layout_idx: index.value,
        next: index.next,
    }
}

fn layout_of(index: u32) -> PixelLayout
    ensures { result ≡ layout_of index }
{
    match index {
        0 => PixelLayout::I420,
        1 => PixelLayout::I400,
        2 => PixelLayout::I444,
        _ => PixelLayout::I422,
    }
}

fn ss_hor(layout: PixelLayout) -> u8
    ensures { result ≡ ss_hor layout }
{
    u8::from(layout != PixelLayout::I444)
}

fn ss_ver(layout: PixelLayout) -> u8
    ensures { result ≡ ss_ver layout }
{
    u8::from(matches!(layout, PixelLayout::I400 | PixelLayout::I420))
}

fn hbd_of(index: u8) -> u8
    ensures { result ≡ hbd_of index }
{
    if index < 2 { 1 - index } else { index }
}

pub fn read_format(s: &[u8], p: Place, layout_idx: u32) -> FormatRead
    ensures { result ≡ read_format layout_idx s.now p }
{
    let layout = layout_of(layout_idx);
    let depth = get_vlc(s, p);
    let depth_idx = depth.value % 256;
    FormatRead {
        value: Format {
            layout,
            ss_hor: ss_hor(layout),
            ss_ver: ss_ver(layout),
            hbd: hbd_of(depth_idx as u8),
        },
        depth_idx,
        next: depth.next,
    }
}

fn read_layers(s: &[u8], p: Place, reduced: bool) -> Read<Layers>
    ensures is { result ≡ read_layers reduced s.now p }
    ensures below { (result.value.max_tlayer_id < 8) × (result.value.max_mlayer_id < 8) }
{
    let lcr = small_if(s, p, 3, !reduced);
    let still = flag_if(s, lcr.next, !reduced);
    let tlayer = small_if(s, still.next, 2, !reduced);
    let mlayer = small_if(s, tlayer.next, 3, !reduced);
    let monotonic = flag_if(s, mlayer.next, !reduced);
    Read {
        value: Layers {
            lcr_id: lcr.value,
            still_picture: reduced | still.value,
            max_tlayer_id: tlayer.value,
            max_mlayer_id: mlayer.value,
            monotonic: reduced | monotonic.value,
        },
        next: monotonic.next,
    }
}

// n bits are a length less 1.
fn read_length(s: &[u8], p: Place, n: u8) -> Read<i32>
    requires { n ≤ 16 }
    ensures { result ≡ read_length s.now p n }
{
    let r = read_bits(s, p, n as u32);
    Read {
        value: (r.value + 1) as i32,
        next: r.next,
    }
}

fn read_frame_size(s: &[u8], p: Place) -> Read<FrameSize>
    ensures { result ≡ read_frame_size s.now p }
{
    let width_bits = get_small(s, p, 4);
    let height_bits = get_small(s, width_bits.next, 4);
    let width = read_length(s, height_bits.next, width_bits.value + 1);
    let height = read_length(s, width.next, height_bits.value + 1);
    Read {
        value: FrameSize {
            width_n_bits: width_bits.value + 1,
            height_n_bits: height_bits.value + 1,
            max_width: width.value,
            max_height: height.value,
        },
        next: height.next,
    }
}

fn read_crop(s: &[u8], p: Place) -> Read<CropInfo>
    ensures { result ≡ read_crop s.now p }
{
    let enabled = get_flag(s, p);
    let left = vlc_if(s, enabled.next, enabled.value);
    let right = vlc_if(s, left.next, enabled.value);
    let top = vlc_if(s, right.next, enabled.value);
    let bottom = vlc_if(s, top.next, enabled.value);
    Read {
        value: CropInfo {
            enabled: enabled.value,
            left: left.value,
            right: right.value,
            top: top.value,
            bottom: bottom.value,
        },
        next: bottom.next,
    }
}

// The display and decoder models are read and not kept.
fn skip_models(s: &[u8], p: Place, reduced: bool) -> Place
    ensures { result ≡ skip_models reduced s.now p }
{
    let display = flag_if(s, p, !reduced);
    let delay = bits_if(s, display.next, 4, display.value);
    let decoder = flag_if(s, delay.next, !reduced);
    let units = bits_if(s, decoder.next, 32, decoder.value);
    let dec_buf = vlc_if(s, units.next, decoder.value);
    let enc_buf = vlc_if(s, dec_buf.next, decoder.value);
    enc_buf.next
}

// Layer n: the bits sent, else 2 ^ (n - 1) - 1.
fn layer_mask(sent: bool, bits: u8, n: usize) -> u8
    requires { (1 ≤ n) × (n < 8) }
    ensures { result ≡ pick sent bits (2 ^ (n - 1) - 1) }
{
    if sent {
        return bits;
    }
    (1u8 << (n - 1)) - 1
}

fn read_layer(s: &[u8], r: LayerList, n: usize, sent: bool) -> LayerList
    requires { (1 ≤ n) × (n < 8) }
    ensures { result ≡ layer sent s.now n r }
{
    let bits = small_if(s, r.next, n as u32, sent);
    let mut dependencies = r.dependencies;
    dependencies[n] = layer_mask(sent, bits.value, n);
    LayerList {
        present: r.present,
        dependencies,
        next: bits.next,
    }
}

fn read_layer_list(s: &[u8], p: Place, max: u8) -> LayerList
    requires { max ≤ 8 }
    ensures { result ≡ read_layer_list max s.now p }
{
    let sent = flag_if(s, p, 0 < max);
    let mut r = LayerList {
        present: sent.value,
        dependencies: [0u8; 8],
        next: sent.next,
    };
    for n in 1..max as usize {
        r = read_layer(s, r, n, sent.value);
    }
    r
}

fn read_dependencies(s: &[u8], p: Place, max_tlayer: u8, max_mlayer: u8) -> Read<Dependencies>
    requires { (max_tlayer ≤ 8) × (max_mlayer ≤ 8) }
    ensures { result ≡ read_dependencies max_tlayer max_mlayer s.now p }
{
    let t = read_layer_list(s, p, max_tlayer);
    let m = read_layer_list(s, t.next, max_mlayer);
    let tlayer_dependencies = t.dependencies;
    let mlayer_dependencies = m.dependencies;
    Read {
        value: Dependencies {
            tlayer_dependency_present: t.present,
            mlayer_dependency_present: m.present,
            tlayer_dependencies,
            mlayer_dependencies,
        },
        next: m.next,
    }
}

pub fn read_picture(s: &[u8], p: Place, reduced: bool) -> Read<Picture>
    ensures { result ≡ read_picture reduced s.now p }
{
    let layers = read_layers(s, p, reduced);
    let size = read_frame_size(s, layers.next);
    let crop = read_crop(s, size.next);
    let behind = skip_models(s, crop.next, reduced);
    let dependencies = read_dependencies(
        s,
        behind,
        layers.value.max_tlayer_id,
        layers.value.max_mlayer_id,
    );
    Read {
        value: Picture {
            layers: layers.value,
            size: size.value,
            crop: crop.value,
            dependencies: dependencies.value,
        },
        next: dependencies.next,
    }
}
