//! Laws of the definitions in `specs/`.
ghost use Rattle.std.specs.Prelude.{◌≡◌, ◌+◌, ◌<◌, ◌≤◌};
ghost use Rattle.der_models.specs.Layout.{ac_measurement_id, capacity_id, enter_service_id, ac_controls_id, least_block, m703_es, m704_w_max_lim_pct_ena};
ghost use Rattle.der_models.specs.Limit.{limit_view_length};

use crate::identifiers::{AC_CONTROLS, AC_MEASUREMENT, CAPACITY, ENTER_SERVICE};
use crate::offsets::M704_W_MAX_LIM_PCT_ENA;

/// The identifiers are the definitions' numbers.
pub fn each_identifier()
    ensures ac_measurement { AC_MEASUREMENT ≡ ac_measurement_id }
    ensures capacity { CAPACITY ≡ capacity_id }
    ensures enter_service { ENTER_SERVICE ≡ enter_service_id }
    ensures ac_controls { AC_CONTROLS ≡ ac_controls_id }
{}

/// The limit stands at the definitions' offset, and all that a read-back reads of it is within a model 704
/// that is long enough.
pub fn limit_place()
    ensures offset { M704_W_MAX_LIM_PCT_ENA ≡ m704_w_max_lim_pct_ena }
    ensures within { m704_w_max_lim_pct_ena + limit_view_length ≤ least_block ac_controls_id }
{}
