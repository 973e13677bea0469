// A segment with its service, and its tariff in thousandths of € per kWh/h per year; its factor has a word of its own.
#[derive(Clone, Copy, PartialEq, Eq, Debug)]
pub struct SegmentWord {
    pub segment: u32,
    pub service: u32,
    pub tariff: u32,
}
