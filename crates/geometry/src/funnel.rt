// The plan of a funnel table: its numbers. Carries the Rust's `FunnelPlan`; the functions
// are in `geometry_funnel`.

// The numbers of a plan; the counts of its levels are lent beside it, 118 of them, 0 past the last level.
#[derive(Clone, Copy)]
pub struct FunnelPlan {
    pub maximum: u64,
    pub alpha: u64,
    pub beta: u64,
    pub loglog_ceiling: u64,
    pub fallback_bucket_width: u64,
    pub special_len: u64,
    pub special_primary_len: u64,
    pub special_fallback_len: u64,
    pub fallback_bucket_count: u64,
    pub total_buckets: u64,
    pub first_bucket_count: u64,
}
