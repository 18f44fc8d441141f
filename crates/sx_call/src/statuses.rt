//! The statuses of replies that have more than one.
ghost use Rattle.std.specs.Prelude.{◌≡◌, true};
ghost use Rattle.sx_call.specs.Statuses.{is_lease_status, is_write_status};

use std::marker::Model;

/// The HTTP status of a reply to a call that wrote: 200 or 201. Contracts see the number.
#[derive(Clone, Copy, Debug, PartialEq, Eq)]
pub struct WriteStatus {
    code: u16,
}

impl Model for WriteStatus {
    ghost use Rattle.std.specs.Prelude.{◌≡◌, ℕ, true};
    ghost use Rattle.sx_call.specs.Statuses.{is_write_status};

    ghost Value = { ℕ };

    ghost view = { λ s. s.code };

    ghost invariant = { λ s. is_write_status s.code ≡ true };

    ghost inverse = { λ n. record { code = n } };
}

impl WriteStatus {
    /// 200 OK.
    pub fn ok() -> WriteStatus
        ensures { result ≡ 200 }
    {
        WriteStatus { code: 200 }
    }

    /// 201 Created.
    pub fn created() -> WriteStatus
        ensures { result ≡ 201 }
    {
        WriteStatus { code: 201 }
    }

    /// The number.
    pub fn code(self) -> u16
        ensures value { result ≡ self }
        ensures limits { is_write_status self ≡ true }
    {
        self.code
    }
}

/// The HTTP status of a reply to a lease action: 200, 201 or 202. Contracts see the number.
#[derive(Clone, Copy, Debug, PartialEq, Eq)]
pub struct LeaseStatus {
    code: u16,
}

impl Model for LeaseStatus {
    ghost use Rattle.std.specs.Prelude.{◌≡◌, ℕ, true};
    ghost use Rattle.sx_call.specs.Statuses.{is_lease_status};

    ghost Value = { ℕ };

    ghost view = { λ s. s.code };

    ghost invariant = { λ s. is_lease_status s.code ≡ true };

    ghost inverse = { λ n. record { code = n } };
}

impl LeaseStatus {
    /// 200 OK: the lease is changed or released.
    pub fn ok() -> LeaseStatus
        ensures { result ≡ 200 }
    {
        LeaseStatus { code: 200 }
    }

    /// 201 Created: the lease is acquired.
    pub fn created() -> LeaseStatus
        ensures { result ≡ 201 }
    {
        LeaseStatus { code: 201 }
    }

    /// 202 Accepted: the lease is broken.
    pub fn accepted() -> LeaseStatus
        ensures { result ≡ 202 }
    {
        LeaseStatus { code: 202 }
    }

    /// The number.
    pub fn code(self) -> u16
        ensures value { result ≡ self }
        ensures limits { is_lease_status self ≡ true }
    {
        self.code
    }
}
