//! Whether a run writes routes.

ghost use Rattle.std.specs.Prelude.{◌≡◌, ◌||◌};
ghost use Rattle.ch_run.specs.Text.{writes_routes};

use ch_job::Options;

/// Returns whether a run with these options writes routes. Plain distances have none.
pub(crate) fn writes_routes(options: &Options) -> bool
    ensures { result ≡ writes_routes options.now }
{
    !options.plain && options.routes
}

/// Returns whether the answers of a run with these options have their routes, if they are asked for with them or
/// without. A request with its route has it in each run.
pub(crate) fn has_routes(options: &Options, routed: bool) -> bool
    ensures { result ≡ (routed || writes_routes options.now) }
{
    routed || writes_routes(options)
}
