// Sizes, prices and quantities.
use gq_tariff::{
    Class, Held, QuantityFault, class_of, price_block, price_caps, price_class, price_pool_table,
    price_slice, read_quantity,
};

#[test]
fn has_the_class_of_each_size(rt: HostRuntime) {
    for class in Class::ALL {
        assert_eq!(rt; class_of(class.size()), class);
    }
}

#[test]
fn prices_bytes_and_capabilities(rt: HostRuntime) {
    let bytes = [
        price_slice(4064),
        price_slice(4065),
        price_block(2048),
        price_block(2049),
        price_pool_table(1024),
        price_class(Class::Bytes16, 1024),
    ];
    let caps = [
        price_caps(Held::Space(8192)),
        price_caps(Held::Slice(100)),
        price_caps(Held::Block(2048)),
        price_caps(Held::Block(2049)),
        price_caps(Held::Pool(1024)),
        price_caps(Held::Places(Class::Bytes16, 1024)),
    ];
    assert_eq!(rt;
        (bytes, caps),
        ([4096, 8192, 0, 4096, 4096, 16384], [1, 1, 0, 1, 1, 4])
    );
}

#[test]
fn reads_quantities(rt: HostRuntime) {
    let quantities = [
        read_quantity(b"8K"),
        read_quantity(b"1024G"),
        read_quantity(b""),
        read_quantity(b"8k"),
        read_quantity(b"K"),
        read_quantity(b"2000G"),
        // of any length: zeros and a nine, many nines, and many nines and a bad byte
        read_quantity(b"0000000000000000000000000000000000000000000000000000000000000009M"),
        read_quantity(b"99999999999999999999999999999999999999999999999999"),
        read_quantity(b"99999999999999999999999999999999999999999999999999x"),
    ];
    assert_eq!(rt;
        quantities,
        [
            Ok(8192),
            Ok(1 << 40),
            Err(QuantityFault::Empty),
            Err(QuantityFault::BadCharacter),
            Err(QuantityFault::BadCharacter),
            Err(QuantityFault::TooLarge),
            Ok(9 << 20),
            Err(QuantityFault::TooLarge),
            Err(QuantityFault::BadCharacter)
        ]
    );
}
