//! Numbers at the limits of their types.

use init_machine::TypeKind;
use prop_rules::check_type;

#[test]
fn numbers_at_their_limits(rt: HostRuntime) {
    assert!(rt; check_type(&TypeKind::Uint, b"18446744073709551615"));
    assert!(rt; !check_type(&TypeKind::Uint, b"18446744073709551616"));
    assert!(rt; check_type(&TypeKind::Int, b"-9223372036854775808"));
    assert!(rt; !check_type(&TypeKind::Int, b"9223372036854775808"));
}
