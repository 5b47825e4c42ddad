//! The laws, as functions that do nothing.
ghost use Rattle.module_cache.specs.Calls.{CallsLookBack};

/// Each call's own rule agrees with looking back over all calls, for what is held and for answers.
pub fn calls_look_back()
    ensures { CallsLookBack }
{}
