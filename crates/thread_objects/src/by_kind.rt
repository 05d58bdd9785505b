//! Going on by the kind of an object.

/// The one list of the kinds that a workload declares: it is put before what the named macro is called with.
macro_rules! with_kinds {
    ($then:ident, $($all:tt)*) => {
        $then!([Mutex RwMutex Cond WaitGroup Once OnceFunc OnceValue Sema Flight] $($all)*)
    };
}

/// Goes on with an object of whatever kind, and with what another enum of the kinds holds of it: with both as they are of that kind, and
/// by the first expression with a map or an atomic.
macro_rules! by_kind {
    ($($all:tt)*) => {
        with_kinds!(all_kinds, arms, $($all)*)
    };
}

/// The kinds that a workload declares, and those that it doesn't: Stop, a part of a pool, and Starts. They are put before what the named
/// macro is called with.
macro_rules! all_kinds {
    ([$($kind:ident)*] $then:ident, $($all:tt)*) => {
        $then!([Stop $($kind)* PoolPart Starts] $($all)*)
    };
}

/// One arm for each of these kinds.
macro_rules! arms {
    ([$($kind:ident)*] $object:expr, $of:ident($held:expr), $shared:expr, |$o:ident, $h:ident| $go:expr) => {
        match $object {
            AnyObject::Shared => $shared,
            $(AnyObject::$kind($o) => match $held {
                $of::$kind($h) => $go,
                _ => unreachable!(),
            },)*
        }
    };
}

/// One arm for each kind of a column: goes on with its passes, and by the first expression with the count of a column of a map or an
/// atomic. What comes of it is a pass of that kind.
macro_rules! taking_arms {
    ([$($kind:ident)*] $column:expr, |$count:ident| $none:expr, |$passes:ident| $go:expr) => {
        match $column {
            AnyColumn::None($count) => $none,
            $(AnyColumn::$kind($passes) => AnyPass::$kind($go),)*
        }
    };
}

/// One arm for each kind of a pass: goes on with it and with the passes of a column, which is of the same kind, and by the first expression
/// with no pass and the count of a column of a map or an atomic.
macro_rules! adding_arms {
    ([$($kind:ident)*] $column:expr, $pass:expr, |$count:ident| $none:expr, |$passes:ident, $p:ident| $go:expr) => {
        match $pass {
            AnyPass::None => match $column {
                AnyColumn::None($count) => $none,
                _ => unreachable!(),
            },
            $(AnyPass::$kind($p) => match $column {
                AnyColumn::$kind($passes) => $go,
                _ => unreachable!(),
            },)*
        }
    };
}

/// One arm for each kind that a workload declares: goes on with an object and with a pass to it. No other object can be there.
macro_rules! declared_arms {
    ([$($kind:ident)*] $object:expr, $pass:expr, |$o:ident, $p:ident| $go:expr) => {
        match $object {
            $(AnyObject::$kind($o) => match $pass {
                AnyPass::$kind($p) => $go,
                _ => unreachable!(),
            },)*
            _ => unreachable!(),
        }
    };
}

/// The same, by how an object is declared: makes it and the passes to it, and what is none of these kinds by the first expression.
macro_rules! making_arms {
    ([$($kind:ident)*] $declared:expr, $shared:expr, $made:expr) => {
        match $declared {
            $(ObjectKind::$kind { .. } => {
                let (object, passes) = $made;
                Ok((AnyObject::$kind(object), AnyColumn::$kind(passes)))
            })*
            ObjectKind::Map => Ok($shared),
            ObjectKind::Atomic(_type) => Ok($shared),
            ObjectKind::Pool => Ok($shared),
            ObjectKind::Var => Ok($shared),
        }
    };
}

pub(crate) use adding_arms;
pub(crate) use all_kinds;
pub(crate) use arms;
pub(crate) use by_kind;
pub(crate) use declared_arms;
pub(crate) use making_arms;
pub(crate) use taking_arms;
pub(crate) use with_kinds;
