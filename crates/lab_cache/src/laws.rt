//! A law over the definitions.
ghost use Rattle.lab_cache.specs.Misses.{MachineAgrees};

/// In the cache of the machine an address is resident exactly where the machine's own definition says so.
pub fn machine_agrees()
    ensures { MachineAgrees }
{}
