// What the calls come to, as the contract of a function that does nothing.
ghost use Rattle.engine_resource.specs.Uses.{AcquiresLessReleases};

/// The count is how often the resource was acquired less how often it was released, in every order in which each release
/// finds one that holds it.
pub fn count_is_acquires_less_releases()
    ensures { AcquiresLessReleases }
{}
