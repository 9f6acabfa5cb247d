//! Laws, each called once: what they state is their contract.

use std::test::Fail;

/// Calls the laws of a crate.
macro_rules! call_laws {
    ($name:ident: $($law:ident)*) => { $($name::laws::$law();)* };
}

#[test]
fn laws_hold(_rt: HostRuntime) -> Result<(), Fail> {
    call_laws! { hdr_base: equivalence intervals widths finer_classes }
    hdr_core::iterators::laws::bins_once();
    call_laws! { hdr_core: missing_values first_class quantile_is_ranked ascending_quantiles
        quantile_and_share recording_stands samples_are_counted new_is_plain clearing_stands
        adding_stands adding_keeps adding_commutes adding_associates joined_stands
        subtracting_undoes_adding equality bins_and_max_are_bounded }
    hdr_core::laws::calls_stand::<u64>();
    call_laws! { hdr_log: time_is_read interval_is_read base64_is_read written_is_read }
    call_laws! { hdrhistogram: one_canonical_spelling spellings_end zig_zag_inverse one_payload
        payload_tells_counts bytes_agree one_parting reading_takes_a_front bytes_read_back
        bytes_are_read read_back_stands merging_adds_the_chosen merged_log_stands }
    call_laws! { hdr_tool: one_outcome outcome_exists ends_stand log_then_merge log_merge_stands
        report_stands report_records }
    Ok(())
}
