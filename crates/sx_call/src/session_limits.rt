//! What the types of the fields of a session's call keep.
ghost use Rattle.sx_call.specs.CallLimits.{IsWithinLimits};
ghost use Rattle.sx_call.specs.declared.calls.Call.{Call};

use crate::field_limits as fields;
use crate::session_calls::{
    SmbClose, SmbDispose, SmbList, SmbLock, SmbOpen, SmbRead, SmbResize, SmbStat, SmbUnlock,
    SmbWrite, Start,
};

impl Start {
    /// What the types of its fields keep. It does nothing.
    pub(crate) fn keeps_limits(&self)
        ensures { IsWithinLimits (Call.Start self.now) }
    {
        fields::word(self.peer);
    }
}

impl SmbOpen {
    /// What the types of its fields keep. It does nothing.
    pub(crate) fn keeps_limits(&self)
        ensures { IsWithinLimits (Call.SmbOpen self.now) }
    {
        fields::share_name(&self.share);
        fields::named_path(&self.path);
        fields::open_access(self.access);
    }
}

impl SmbClose {
    /// What the types of its fields keep. It does nothing.
    pub(crate) fn keeps_limits(&self)
        ensures { IsWithinLimits (Call.SmbClose self.now) }
    {
        fields::handle_index(self.index);
    }
}

impl SmbRead {
    /// What the types of its fields keep. It does nothing.
    pub(crate) fn keeps_limits(&self)
        ensures { IsWithinLimits (Call.SmbRead self.now) }
    {
        fields::handle_index(self.index);
        fields::read_range(self.range);
    }
}

impl SmbWrite {
    /// What the types of its fields keep. It does nothing.
    pub(crate) fn keeps_limits(&self)
        ensures { IsWithinLimits (Call.SmbWrite self.now) }
    {
        fields::handle_index(self.index);
        fields::handle_write(&self.write);
    }
}

impl SmbResize {
    /// What the types of its fields keep. It does nothing.
    pub(crate) fn keeps_limits(&self)
        ensures { IsWithinLimits (Call.SmbResize self.now) }
    {
        fields::handle_index(self.index);
        fields::file_length(self.length);
    }
}

impl SmbLock {
    /// What the types of its fields keep. It does nothing.
    pub(crate) fn keeps_limits(&self)
        ensures { IsWithinLimits (Call.SmbLock self.now) }
    {
        fields::handle_index(self.index);
        fields::byte_range(self.range);
    }
}

impl SmbUnlock {
    /// What the types of its fields keep. It does nothing.
    pub(crate) fn keeps_limits(&self)
        ensures { IsWithinLimits (Call.SmbUnlock self.now) }
    {
        fields::handle_index(self.index);
        fields::byte_range(self.range);
    }
}

impl SmbStat {
    /// What the types of its fields keep. It does nothing.
    pub(crate) fn keeps_limits(&self)
        ensures { IsWithinLimits (Call.SmbStat self.now) }
    {
        fields::handle_index(self.index);
    }
}

impl SmbList {
    /// What the types of its fields keep. It does nothing.
    pub(crate) fn keeps_limits(&self)
        ensures { IsWithinLimits (Call.SmbList self.now) }
    {
        fields::handle_index(self.index);
        fields::text(&self.marker);
        fields::page_size(self.max);
    }
}

impl SmbDispose {
    /// What the types of its fields keep. It does nothing.
    pub(crate) fn keeps_limits(&self)
        ensures { IsWithinLimits (Call.SmbDispose self.now) }
    {
        fields::handle_index(self.index);
    }
}
